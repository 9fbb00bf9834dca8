// The kinds of a record, and what each has. They are numbers and no enum: a kind is any byte of a sheet that may not have been judged, so that `sheet::kind` gives
// any number, and each function here answers for every number. An enum would ask more of their callers. They tell kinds by comparisons and `&` and `|`, without
// branches: by `matches!`, and with `get` in `bytes.rt`, `exercise` takes 3 in 100 more instructions, `bits` 14, and `exercise` is at its aim.
ghost use Rattle.std.specs.Prelude.{◌≡◌, length};
ghost use Rattle.rules.specs.Words.{within};
ghost use Rattle.rules.specs.Kind;

use crate::subs;

pub const DECLARATION: u8 = 1;

pub const IMPORTED_NAME: u8 = 2;

pub const WILDCARD: u8 = 3;

pub const HEAD: u8 = 10;

pub const FIELD: u8 = 11;

pub const FIELD_TOMBSTONE: u8 = 12;

pub const INVARIANT: u8 = 13;

pub const VARIANT: u8 = 14;

pub const TOMBSTONE: u8 = 15;

pub const BACKING: u8 = 16;

pub const ANNOTATION: u8 = 20;

pub const ARGUMENT: u8 = 21;

pub const BIT_NAME: u8 = 22;

pub const PRIMITIVE: u8 = 30;

pub const SUB_BYTE: u8 = 31;

pub const SEMANTIC: u8 = 32;

pub const NAMED: u8 = 33;

pub const QUALIFIED: u8 = 34;

pub const GENERIC: u8 = 35;

pub const OPTIONAL: u8 = 36;

pub const ARRAY: u8 = 37;

pub const FIXED_ARRAY: u8 = 38;

pub const SET: u8 = 39;

pub const MAP: u8 = 40;

pub const RESULT: u8 = 41;

pub const VEC2: u8 = 42;

pub const VEC3: u8 = 43;

pub const VEC4: u8 = 44;

pub const QUAT: u8 = 45;

pub const MAT3: u8 = 46;

pub const MAT4: u8 = 47;

pub const BITS_INLINE: u8 = 48;

pub const AND: u8 = 50;

pub const OR: u8 = 51;

pub const NOT: u8 = 52;

pub const CMP: u8 = 53;

pub const RANGE: u8 = 54;

pub const LEN_CMP: u8 = 55;

pub const LEN_RANGE: u8 = 56;

pub const OPERAND: u8 = 60;

// Whether the kind is one of a type's.
pub fn is_type(kind: u8) -> bool
    ensures { result ≡ Kind.is_type kind }
{
    (PRIMITIVE <= kind) & (kind <= BITS_INLINE)
}

// Whether the kind is one of a condition's.
pub fn is_condition(kind: u8) -> bool
    ensures { result ≡ Kind.is_condition kind }
{
    (AND <= kind) & (kind <= LEN_RANGE)
}

// Whether an item of a field list begins with a record of the kind.
pub fn is_field_item(kind: u8) -> bool
    ensures { result ≡ within Kind.Field Kind.Invariant kind }
{
    (FIELD <= kind) & (kind <= INVARIANT)
}

// Whether an item of an enum, flags or a union begins with a record of the kind.
pub fn is_variant_item(kind: u8) -> bool
    ensures { result ≡ within Kind.Variant Kind.Tombstone kind }
{
    (VARIANT <= kind) & (kind <= TOMBSTONE)
}

// Whether a record of the kind and the sub has a name.
#[tactic(auto, unfolding(rules::specs::Words::any_of))]
pub fn is_named(kind: u8, sub: u8) -> bool
    ensures { result ≡ Kind.has_name kind sub }
{
    (kind == DECLARATION)
        | (kind == IMPORTED_NAME)
        | (kind == HEAD)
        | (kind == FIELD)
        | (kind == VARIANT)
        | (kind == ANNOTATION)
        | (kind == ARGUMENT)
        | (kind == BIT_NAME)
        | (kind == NAMED)
        | (kind == QUALIFIED)
        | (kind == GENERIC)
        | ((kind == OPERAND) & (sub == subs::CONST_REF))
}

// Whether the kind's value is an ordinal.
#[tactic(auto, unfolding(rules::specs::Words::any_of))]
pub fn has_ordinal(kind: u8) -> bool
    ensures { result ≡ Kind.has_ordinal kind }
{
    (kind == FIELD) | (kind == FIELD_TOMBSTONE) | (kind == VARIANT) | (kind == TOMBSTONE)
}

// Whether the kind's value is another number: a literal, or an array's size.
pub(crate) fn has_literal(kind: u8) -> bool
    ensures { result ≡ Kind.has_literal kind }
{
    (kind == ARGUMENT) | (kind == FIXED_ARRAY) | (kind == OPERAND)
}

// Whether the kind has a span for its ordinal.
pub(crate) fn has_ordinal_span(kind: u8) -> bool
    ensures { result ≡ Kind.has_ordinal_span kind }
{
    (kind == FIELD) | (kind == VARIANT)
}

// How many subs the kind has: none, for a kind without a sub.
#[tactic(auto, unfolding(rules::specs::Words::look_up))]
pub(crate) fn sub_count(kind: u8) -> u8
    ensures { result ≡ Kind.sub_count kind }
{
    match kind {
        DECLARATION => 10,
        HEAD => 5,
        BACKING => 4,
        ARGUMENT => 6,
        PRIMITIVE => 14,
        SEMANTIC => 6,
        CMP => 6,
        RANGE => 2,
        LEN_CMP => 6,
        LEN_RANGE => 2,
        OPERAND => 6,
        _ => 0,
    }
}

// How many parts follow a record of the kind, and belong to it.
#[tactic(auto, unfolding(rules::specs::Kind::parts_of))]
pub fn part_count(kind: u8) -> u8
    ensures { result ≡ length (Kind.parts_of kind) }
{
    match kind {
        GENERIC => 1,
        OPTIONAL => 1,
        ARRAY => 1,
        FIXED_ARRAY => 1,
        SET => 1,
        MAP => 2,
        RESULT => 2,
        VEC2 => 1,
        VEC3 => 1,
        VEC4 => 1,
        QUAT => 1,
        MAT3 => 1,
        MAT4 => 1,
        AND => 2,
        OR => 2,
        NOT => 1,
        CMP => 1,
        RANGE => 2,
        LEN_CMP => 1,
        LEN_RANGE => 2,
        _ => 0,
    }
}
