// The five bodies: rules 1 to 5 and 31 to 38.
#![tactic(auto)]

mod declaration;
mod enums;
mod field;
mod flags;
mod message;
mod newtype;
mod runs;
mod unions;
mod variants;

pub use declaration::check_declaration;
