// A violation: its class, its severity and where it was found. Class and severity are numbers and no enums, since the bytes of a list that are read back may be any
// numbers; what the check tells is told by a `Rule`, which has both.
use crate::sheet::Sheet;
use crate::span::Span;

#[derive(Clone, Copy)]
pub struct Violation {
    pub class: u16,
    pub severity: u8,
    pub span: Span,
}

impl Violation {
    // The bytes of a written violation.
    pub const SIZE: usize = 12;
    // The most for each record of a sheet.
    pub const PER_RECORD: usize = 3;
    // The most that are told or recorded of a list: those of the longest sheet.
    pub const MOST: usize = Violation::PER_RECORD * Sheet::MAX_RECORDS;

    // The severities.
    pub const ERROR: u8 = 0;

    pub const WARNING: u8 = 1;

    // The classes that the rules give, under the names of `ErrorClass`'s variants and counted from 0 in its order.
    pub const FieldNameDuplicate: u16 = 13;

    pub const OrdinalDuplicate: u16 = 14;

    pub const OrdinalTooLarge: u16 = 15;

    pub const OrdinalReusedAfterRemoved: u16 = 16;

    pub const UnknownType: u16 = 17;

    pub const ConfigTypeAsField: u16 = 18;

    pub const NewtypeOverNewtype: u16 = 19;

    pub const NewtypeOverConfig: u16 = 20;

    pub const InvalidMapKey: u16 = 28;

    pub const GeometricInvalidElementType: u16 = 29;

    pub const EnumOrdinalDuplicate: u16 = 34;

    pub const EnumOrdinalTooLarge: u16 = 35;

    pub const EnumBackingTooNarrow: u16 = 36;

    pub const FlagsBitTooHigh: u16 = 39;

    pub const BitsInlineEmpty: u16 = 40;

    pub const InvalidBitName: u16 = 41;

    pub const UnionOrdinalDuplicate: u16 = 42;

    pub const UnionOrdinalTooLarge: u16 = 43;

    pub const DuplicateAnnotation: u16 = 45;

    pub const DeprecatedMissingReason: u16 = 47;

    pub const LimitInvalidTarget: u16 = 49;

    pub const LimitExceedsGlobal: u16 = 50;

    pub const LimitZero: u16 = 51;

    pub const VarintInvalidTarget: u16 = 52;

    pub const ZigzagInvalidTarget: u16 = 53;

    pub const VarintZigzagCombined: u16 = 54;

    pub const DeltaInvalidTarget: u16 = 55;

    pub const WhereClauseTypeMismatch: u16 = 63;

    pub const WhereClauseRangeInvalid: u16 = 64;

    pub const WhereClauseLenOnNonCollection: u16 = 65;

    pub const WhereClauseConstRefNotFound: u16 = 66;

    pub const WhereClauseOperatorInvalid: u16 = 67;

    pub const InvariantUnsupported: u16 = 68;
}
