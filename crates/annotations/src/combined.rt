// Rule 13: `varint` and `zigzag` are not combined.
ghost use Rattle.std.specs.Prelude.{◌≡◌, ◌≤◌};
ghost use Rattle.rules.specs.Annotations.{annotations_of, combined_violations};
ghost use Rattle.names.specs.Codes.{last_word};
ghost use Rattle.names.specs.Known.{numbers_of, context_in, records_in};
ghost use Rattle.diagnostic.specs.Violations.{Adds};
ghost use Rattle.annotations.specs.FirstWith.{first_with, at_first};
ghost use Rattle.names.specs.WordOf.{code_of};

use crate::arguments::is_annotation;
use crate::word::is_word;
use diagnostic::Violations;
use names::{ValidationContext, Word};
use rules::{RecordRange, Rule};

// The first annotation with that word, if there is one.
pub fn first_with(context: ValidationContext, word: Word, annotations: RecordRange) -> Option<usize>
    ensures { 1 ≤ code_of word → code_of word ≤ last_word → at_first context.entry.sheet.now annotations.end result ≡ first_with (numbers_of context.entry) context.entry.sheet.now (code_of word) annotations.start annotations.end }
{
    (annotations.start..annotations.end).find(|i| is_annotation(context.sheet, *i)
        & is_word(context, *i, word))
}

// Adds the violation of `varint` and `zigzag` both among the annotations, at the first `zigzag`.
pub fn check_combined(
    context: ValidationContext,
    violations: &mut Violations,
    annotations: RecordRange,
)
    ensures { Adds violations.old violations.new (combined_violations (context_in context.entry) (annotations_of (records_in context.entry annotations))) }
{
    let Some(zigzag) = first_with(context, Word::Zigzag, annotations) else {
        return;
    };
    let varint = first_with(context, Word::Varint, annotations).is_some();
    violations.tell_if(varint, context.sheet, zigzag, Rule::VarintZigzagCombined);
}
