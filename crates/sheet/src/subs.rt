// The subs that the code names, by the record that has them. They are numbers and no enums: `sheet::sub` gives any byte, and what a sub says depends on the kind
// beside it; `is_named` and `types::is_declared_as`, which are public, take any.
ghost use Rattle.std.specs.Prelude.{◌≡◌};
ghost use Rattle.rules.specs.Sub;

// Of a primitive type.
pub const BOOL: u8 = 0;

pub const U8: u8 = 1;

pub const U16: u8 = 2;

pub const U64: u8 = 4;

pub const I16: u8 = 6;

pub const I64: u8 = 8;

pub const F32: u8 = 9;

pub const F64: u8 = 10;

pub const FIXED32: u8 = 11;

pub const FIXED64: u8 = 12;

pub const VOID: u8 = 13;

// Of a semantic type.
pub const STRING: u8 = 0;

pub const BYTES: u8 = 1;

// Of a known declaration, and of a head.
pub const MESSAGE: u8 = 0;

pub const ENUM: u8 = 1;

pub const FLAGS: u8 = 2;

pub const UNION: u8 = 3;

pub const NEWTYPE: u8 = 4;

pub const CONFIG: u8 = 5;

pub const CONST: u8 = 7;

// Of a backing.
pub const U8_BACKING: u8 = 0;

pub const U16_BACKING: u8 = 1;

pub const U32_BACKING: u8 = 2;

pub const U64_BACKING: u8 = 3;

// Of an argument: of those that are numbers.
pub const INT_ARGUMENT: u8 = 0;

pub const HEX_ARGUMENT: u8 = 1;

// Of a comparison: the first and the last of the operators that order, Lt, Gt, Le and Ge.
pub const LT: u8 = 2;

pub const GE: u8 = 5;

// Of an operand: literals, and a constant's name.
pub const INT_OPERAND: u8 = 0;

pub const FLOAT_OPERAND: u8 = 1;

pub const STRING_OPERAND: u8 = 2;

pub const BOOL_OPERAND: u8 = 3;

pub const CONST_REF: u8 = 5;

// Whether a declaration of that sub renames the type that stands directly after it.
pub fn is_renaming(sub: u8) -> bool
    ensures { result ≡ Sub.is_renaming sub }
{
    sub == NEWTYPE
}
