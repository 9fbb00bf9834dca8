// Annotations: rules 13 to 22.
#![tactic(auto)]

mod annotation;
mod arguments;
mod combined;
mod deprecated;
mod duplicates;
mod field;
mod limit;
mod word;

pub use deprecated::check_deprecated_has_reason;
pub use duplicates::check_duplicate_annotations;
pub use field::check_field_annotations;
pub use limit::check_limit_value;
