// Rules 14 to 21: one annotation of a field.
ghost use Rattle.rules.specs.Annotations.{annotation_violations};
ghost use Rattle.names.specs.Known.{context_in, records_in};
ghost use Rattle.names.specs.View.{view_at};
ghost use Rattle.diagnostic.specs.Violations.{Adds};
ghost use Rattle.annotations.specs.AnnotationAt.{annotation_in};
ghost use Rattle.annotations.specs.Target.{target_violations};

use crate::deprecated::check_deprecated_has_reason;
use crate::limit::check_limit_value;
use diagnostic::Violations;
use names::{ValidationContext, Word};
use rules::{RecordRange, Rule};

// Adds rules 14 to 17 of an annotation with that word at record `i`: a field of that type may not have it.
#[tactic(auto, using(crate::proofs::OneAnnotation::no_target), unfolding(names::specs::View::view_at))]
fn check_target(
    context: ValidationContext,
    violations: &mut Violations,
    word: Word,
    i: usize,
    ty: RecordRange,
)
    ensures { Adds violations.old violations.new (target_violations word (records_in context.entry ty) (view_at context.entry.sheet.now i).place) }
{
    let (valid, rule) = match word {
        Word::Varint => (
            types::is_varint_valid_type(context.sheet, ty),
            Rule::VarintInvalidTarget,
        ),
        Word::Zigzag => (
            types::is_zigzag_valid_type(context.sheet, ty),
            Rule::ZigzagInvalidTarget,
        ),
        Word::Delta => (
            types::is_delta_valid_type(context.sheet, ty),
            Rule::DeltaInvalidTarget,
        ),
        Word::Limit => (
            types::is_limit_valid_type(context.sheet, ty),
            Rule::LimitInvalidTarget,
        ),
        _ => return,
    };
    violations.tell_if(!valid, context.sheet, i, rule);
}

// Adds what is wrong with the annotation at the first record of a field of that type. Its arguments are the records after it, up to the next annotation.
pub fn check_annotation(
    context: ValidationContext,
    violations: &mut Violations,
    annotation: RecordRange,
    ty: RecordRange,
)
    ensures { Adds violations.old violations.new (annotation_violations (context_in context.entry) (records_in context.entry ty) (annotation_in context.entry annotation)) }
{
    let Some(word) = context.word(annotation.start) else {
        return;
    };
    check_target(context, violations, word, annotation.start, ty);
    match word {
        Word::Limit => check_limit_value(context, violations, annotation, ty),
        Word::Deprecated => check_deprecated_has_reason(context, violations, annotation),
        _ => {}
    }
}
