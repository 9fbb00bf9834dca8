// What was met along a list: ordinals, by rules 2 to 4, 31, 32, 35 and 36, and names.
#![tactic(auto)]

mod items;
mod list;
mod met;
mod named;
mod numbers;
mod ordinal;
mod seen;
mod whole;

pub use items::{Meeting, MetItem};
pub use met::MetNames;
pub use named::NamedRecords;
pub use ordinal::OrdinalRules;
pub use seen::Seen;
pub use whole::WholeRecords;
