// Reading the records of a sheet: each field of record i, for a sheet of any length and any i. Past the end everything reads as 0.
// A record is named by its sheet and its index, as in the definitions: the index goes on to ids, ranges and places, and a function that reads two records of one
// sheet would have to promise of a type of both that they are.
#![tactic(auto)]

mod bytes;
mod field_name;
pub mod kinds;
mod names;
mod record;
pub mod subs;

pub use field_name::{continue_by, name_marks, starts_by};
pub use kinds::{has_ordinal, is_condition, is_field_item, is_type, is_variant_item, part_count};
pub use names::{fits, has_name, name_len, name_offset};
pub use record::{kind, ordinal_span, records, span, sub, value};
