// The table of names: what the rules ask of the name of each record, worked out once, and written here alone.
#![tactic(auto)]

mod asked;
mod codes;
mod compare;
mod context;
mod count;
mod ends;
mod hash;
mod ids;
mod notes;
mod own;
mod parts;
mod records;
mod table;
mod values;
mod whole;
mod words;

pub use context::ValidationContext;
pub use ends::never_ends;
pub use table::NameTable;
pub use whole::fill;
pub use words::Word;
