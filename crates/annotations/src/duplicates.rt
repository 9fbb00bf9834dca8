// Rule 22: an annotation is not repeated.
ghost use Rattle.std.specs.Prelude.{◌≡◌, []};
ghost use Rattle.rules.specs.Annotations.{annotations_of, duplicate_annotations};
ghost use Rattle.names.specs.Known.{numbers_of, context_in, records_in};
ghost use Rattle.diagnostic.specs.Violations.{Adds};
ghost use Rattle.lists.specs.Met.{Row, Tells};
ghost use Rattle.annotations.specs.Earlier.{is_compared_at, annotations_row};

use crate::arguments::is_annotation;
use crate::word::is_word;
use diagnostic::Violations;
use lists::{MetNames, NamedRecords};
use names::{ValidationContext, Word};
use rules::{RecordRange, Rule};
use sheet::kinds;

// The most records whose annotations are compared one by one: for so few, that takes less than to clear the slots of names.
const FEW: usize = 16;

// Whether record `i` is an annotation other than `doc`.
#[tactic(auto, using(crate::proofs::Repeats::compared_by))]
fn is_compared(context: ValidationContext, i: usize) -> bool
    ensures { result ≡ is_compared_at (numbers_of context.entry) context.entry.sheet.now i }
{
    is_annotation(context.sheet, i) & !is_word(context, i, Word::Doc)
}

// Adds a violation at each annotation that repeats an earlier one, by a test of each other than `doc` for an annotation before it that has its name.
fn check_met<F: FnMut(usize) -> bool>(
    context: ValidationContext,
    violations: &mut Violations,
    annotations: RecordRange,
    mut is_met: F,
)
    requires { F.IsAlwaysCallable is_met }
    ensures { (row : F → Row) → row is_met ≡ annotations_row (numbers_of context.entry) context.entry.sheet.now annotations.start → Tells F.step row → Adds violations.old violations.new (duplicate_annotations (context_in context.entry) [] (annotations_of (records_in context.entry annotations))) }
{
    for i in annotations.start..annotations.end {
        if is_compared(context, i) {
            let duplicate = is_met(i);
            violations.tell_if(duplicate, context.sheet, i, Rule::DuplicateAnnotation);
        }
    }
}

// Adds a violation at each annotation that repeats an earlier one.
pub fn check_duplicate_annotations(
    context: ValidationContext,
    violations: &mut Violations,
    annotations: RecordRange,
)
    ensures { Adds violations.old violations.new (duplicate_annotations (context_in context.entry) [] (annotations_of (records_in context.entry annotations))) }
{
    if annotations.end.saturating_sub(annotations.start) <= FEW {
        let records = NamedRecords {
            context,
            kind: kinds::ANNOTATION,
            start: annotations.start,
        };
        check_met(context, violations, annotations, |i| records.is_met(i));
    } else {
        let mut names = MetNames::new(context, kinds::ANNOTATION, annotations.start);
        check_met(context, violations, annotations, |i| names.is_met(i));
    }
}
