// The rules of a field's type.
#![tactic(auto)]

mod bits;
mod declared;
mod field_type;
mod key;
mod optional;
mod own;
mod valid;

pub use declared::is_declared_as;
pub use field_type::check_field_type;
pub use key::{check_map_key_type, is_invalid_map_key};
pub use optional::{is_collection_type, is_numeric_type};
pub use own::check_named;
pub use valid::{
    is_delta_valid_type, is_limit_capped_type, is_limit_valid_type,
    is_valid_geometric_element_type, is_varint_valid_type, is_zigzag_valid_type,
};
