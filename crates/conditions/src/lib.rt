// The conditions of a field: rules 23 to 30.
#![tactic(auto)]

mod expr;
mod literals;
mod node;
mod operand;
mod operands;
mod operator;

pub use expr::validate_where_expr;
pub use literals::{Literals, length_literals, literals_of};
pub use operand::validate_where_operand;
pub use operator::validate_cmp_operator;
