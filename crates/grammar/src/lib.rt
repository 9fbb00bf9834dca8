// Which record may follow those before: the machine that takes the records of a sheet one by one.
#![tactic(auto)]

mod due;
mod fields;
mod machine;
mod order;
mod state;

pub use due::Due;
pub use state::{Body, Item, State};
