// Writing the list of violations and counting them.
#![tactic(auto)]

mod encode;
mod list;
mod violations;

pub use violations::Violations;
