// Rules 13 to 22: the annotations of a field.
ghost use Rattle.std.specs.Prelude.{◌≡◌, false};
ghost use Rattle.rules.specs.Annotations.{annotations_violations};
ghost use Rattle.names.specs.Known.{context_in, records_in};
ghost use Rattle.diagnostic.specs.Violations.{Adds};
ghost use Rattle.annotations.specs.AnnotationAt.{NoneAfter};
ghost use Rattle.annotations.specs.Each.{each_from};

use crate::annotation::check_annotation;
use crate::arguments::{is_annotation, rest};
use crate::combined::check_combined;
use crate::duplicates::check_duplicate_annotations;
use diagnostic::Violations;
use names::ValidationContext;
use rules::RecordRange;

// Adds what is wrong with each of the annotations by itself.
pub fn check_each(
    context: ValidationContext,
    violations: &mut Violations,
    annotations: RecordRange,
    ty: RecordRange,
)
    ensures { Adds violations.old violations.new (each_from context.entry ty annotations.start annotations.end) }
{
    for i in annotations.start..annotations.end {
        if is_annotation(context.sheet, i) {
            check_annotation(context, violations, annotations.starting_at(i), ty);
        }
    }
}

// Whether an annotation stands after the first record.
fn has_second(sheet: &[u8], annotations: RecordRange) -> bool
    ensures { result ≡ false → NoneAfter sheet.now annotations.start annotations.end }
{
    let rest = rest(annotations);
    (rest.start..rest.end).any(|i| is_annotation(sheet, i))
}

// Adds what is wrong with the annotations of a field of that type.
pub fn check_field_annotations(
    context: ValidationContext,
    violations: &mut Violations,
    annotations: RecordRange,
    ty: RecordRange,
)
    ensures { Adds violations.old violations.new (annotations_violations (context_in context.entry) (records_in context.entry ty) (records_in context.entry annotations)) }
{
    // two annotations are wanted for rules 13 and 22
    let several = has_second(context.sheet, annotations);
    if several {
        check_combined(context, violations, annotations);
    }
    check_each(context, violations, annotations, ty);
    if several {
        check_duplicate_annotations(context, violations, annotations);
    }
}
