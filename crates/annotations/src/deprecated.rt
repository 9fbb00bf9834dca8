// Rules 20 and 21: `deprecated` says why.
ghost use Rattle.std.specs.Prelude.{◌≡◌};
ghost use Rattle.rules.specs.Annotations.{has_reason, deprecated_violations};
ghost use Rattle.names.specs.Known.{context_in};
ghost use Rattle.diagnostic.specs.Violations.{Adds};
ghost use Rattle.annotations.specs.AnnotationAt.{annotation_in};

use crate::arguments::arguments;
use crate::word::is_word;
use diagnostic::Violations;
use names::{ValidationContext, Word};
use rules::{RecordRange, Rule};

// Whether the annotation at the first record has a key `reason`.
pub fn has_reason(context: ValidationContext, annotation: RecordRange) -> bool
    ensures { result ≡ has_reason (context_in context.entry) (annotation_in context.entry annotation) }
{
    let arguments = arguments(context.sheet, annotation);
    (arguments.start..arguments.end).any(|j| is_word(context, j, Word::Reason))
}

// Adds the error of a `deprecated` without a reason, or the warning of one with a reason, at the first record. Its arguments are those after it, up to
// the next annotation.
pub fn check_deprecated_has_reason(
    context: ValidationContext,
    violations: &mut Violations,
    annotation: RecordRange,
)
    ensures { Adds violations.old violations.new (deprecated_violations (context_in context.entry) (annotation_in context.entry annotation)) }
{
    let at = annotation.start;
    let reason = has_reason(context, annotation);
    violations.tell_if(!reason, context.sheet, at, Rule::DeprecatedMissingReason);
    violations.tell_if(reason, context.sheet, at, Rule::DeprecatedWithReason);
}
