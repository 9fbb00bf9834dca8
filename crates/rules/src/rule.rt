// The 38 rules, each under the name of the class that it gives. Where several rules give one class, the name says what tells them apart.
ghost use Rattle.std.specs.Prelude.{◌≡◌};
ghost use Rattle.rules.specs.Rule.{class_of, severity_of, violation};
ghost use Rattle.rules.specs.RuleNumber.{rule_number};

use crate::span::Span;
use crate::violation::Violation;

// The rules, in the order of their numbers, 1 to 38.
#[derive(Clone, Copy)]
pub enum Rule {
    // an invariant
    InvariantUnsupported = 1,
    // the ordinals of a message
    OrdinalTooLarge = 2,
    OrdinalReusedAfterRemoved = 3,
    OrdinalDuplicate = 4,
    // the names of a message
    FieldNameDuplicate = 5,
    // types
    ConfigTypeAsField = 6,
    UnknownType = 7,
    InvalidMapKey = 8,
    FixedArrayEmpty = 9,
    GeometricInvalidElementType = 10,
    BitsInlineEmpty = 11,
    InvalidBitName = 12,
    // annotations
    VarintZigzagCombined = 13,
    VarintInvalidTarget = 14,
    ZigzagInvalidTarget = 15,
    DeltaInvalidTarget = 16,
    LimitInvalidTarget = 17,
    LimitZero = 18,
    LimitExceedsGlobal = 19,
    DeprecatedMissingReason = 20,
    DeprecatedWithReason = 21,
    DuplicateAnnotation = 22,
    // conditions
    WhereClauseIntMismatch = 23,
    WhereClauseFloatMismatch = 24,
    WhereClauseStringMismatch = 25,
    WhereClauseBoolMismatch = 26,
    WhereClauseConstRefNotFound = 27,
    WhereClauseOperatorInvalid = 28,
    WhereClauseRangeInvalid = 29,
    WhereClauseLenOnNonCollection = 30,
    // enums
    EnumOrdinalTooLarge = 31,
    EnumOrdinalDuplicate = 32,
    EnumBackingTooNarrow = 33,
    // flags
    FlagsBitTooHigh = 34,
    // unions
    UnionOrdinalTooLarge = 35,
    UnionOrdinalDuplicate = 36,
    // newtypes
    NewtypeOverNewtype = 37,
    NewtypeOverConfig = 38,
}

impl Rule {
    // The class that the rule gives.
    #[tactic(auto, unfolding(crate::specs::Rule::rule_row))]
    pub fn class(self) -> u16
        ensures { result ≡ class_of (rule_number self) }
    {
        match self {
            Rule::InvariantUnsupported => Violation::InvariantUnsupported,
            Rule::OrdinalTooLarge => Violation::OrdinalTooLarge,
            Rule::OrdinalReusedAfterRemoved => Violation::OrdinalReusedAfterRemoved,
            Rule::OrdinalDuplicate => Violation::OrdinalDuplicate,
            Rule::FieldNameDuplicate => Violation::FieldNameDuplicate,
            Rule::ConfigTypeAsField => Violation::ConfigTypeAsField,
            Rule::UnknownType => Violation::UnknownType,
            Rule::InvalidMapKey => Violation::InvalidMapKey,
            Rule::FixedArrayEmpty | Rule::LimitZero => Violation::LimitZero,
            Rule::GeometricInvalidElementType => Violation::GeometricInvalidElementType,
            Rule::BitsInlineEmpty => Violation::BitsInlineEmpty,
            Rule::InvalidBitName => Violation::InvalidBitName,
            Rule::VarintZigzagCombined => Violation::VarintZigzagCombined,
            Rule::VarintInvalidTarget => Violation::VarintInvalidTarget,
            Rule::ZigzagInvalidTarget => Violation::ZigzagInvalidTarget,
            Rule::DeltaInvalidTarget => Violation::DeltaInvalidTarget,
            Rule::LimitInvalidTarget => Violation::LimitInvalidTarget,
            Rule::LimitExceedsGlobal => Violation::LimitExceedsGlobal,
            Rule::DeprecatedMissingReason | Rule::DeprecatedWithReason => {
                Violation::DeprecatedMissingReason
            }
            Rule::DuplicateAnnotation => Violation::DuplicateAnnotation,
            Rule::WhereClauseIntMismatch
            | Rule::WhereClauseFloatMismatch
            | Rule::WhereClauseStringMismatch
            | Rule::WhereClauseBoolMismatch => Violation::WhereClauseTypeMismatch,
            Rule::WhereClauseConstRefNotFound => Violation::WhereClauseConstRefNotFound,
            Rule::WhereClauseOperatorInvalid => Violation::WhereClauseOperatorInvalid,
            Rule::WhereClauseRangeInvalid => Violation::WhereClauseRangeInvalid,
            Rule::WhereClauseLenOnNonCollection => Violation::WhereClauseLenOnNonCollection,
            Rule::EnumOrdinalTooLarge => Violation::EnumOrdinalTooLarge,
            Rule::EnumOrdinalDuplicate => Violation::EnumOrdinalDuplicate,
            Rule::EnumBackingTooNarrow => Violation::EnumBackingTooNarrow,
            Rule::FlagsBitTooHigh => Violation::FlagsBitTooHigh,
            Rule::UnionOrdinalTooLarge => Violation::UnionOrdinalTooLarge,
            Rule::UnionOrdinalDuplicate => Violation::UnionOrdinalDuplicate,
            Rule::NewtypeOverNewtype => Violation::NewtypeOverNewtype,
            Rule::NewtypeOverConfig => Violation::NewtypeOverConfig,
        }
    }

    // The severity of what the rule finds.
    #[tactic(auto, unfolding(crate::specs::Rule::rule_row))]
    pub fn severity(self) -> u8
        ensures { result ≡ severity_of (rule_number self) }
    {
        match self {
            Rule::DeprecatedWithReason => Violation::WARNING,
            _ => Violation::ERROR,
        }
    }
    // The violation of the rule at that span.
    pub fn violation_at(self, span: Span) -> Violation
        ensures { result ≡ violation (record { rule = rule_number self; place = span }) }
    {
        Violation {
            class: self.class(),
            severity: self.severity(),
            span,
        }
    }
}
