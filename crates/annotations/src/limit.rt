// Rules 18 and 19: the value of a `limit`.
ghost use Rattle.std.specs.Prelude.{◌≡◌};
ghost use Rattle.rules.specs.Annotations.{limit_value_violations};
ghost use Rattle.names.specs.Known.{numbers_of, context_in, records_in};
ghost use Rattle.names.specs.View.{view_at};
ghost use Rattle.diagnostic.specs.Violations.{Adds};
ghost use Rattle.annotations.specs.AnnotationAt.{annotation_in, is_number_at};
ghost use Rattle.annotations.specs.LimitViolations.{limit_violations};

use crate::arguments::arguments;
use crate::word::is_word;
use diagnostic::Violations;
use names::{ValidationContext, Word};
use rules::{RecordRange, Rule, Sheet};
use sheet::subs;

// Whether record `j` is a number without a key.
#[tactic(auto, unfolding(crate::specs::AnnotationAt::is_number_at, names::specs::View::context_by, names::specs::View::view_at))]
pub fn is_number(context: ValidationContext, j: usize) -> bool
    ensures { result ≡ is_number_at (numbers_of context.entry) context.entry.sheet.now j }
{
    is_word(context, j, Word::Blank)
        & matches!(
            sheet::sub(context.sheet, j),
            subs::INT_ARGUMENT | subs::HEX_ARGUMENT
        )
}

// Adds what is wrong with argument `j` of the limit at record `i`, for that type.
pub fn check_argument(
    context: ValidationContext,
    violations: &mut Violations,
    i: usize,
    j: usize,
    ty: RecordRange,
)
    ensures { Adds violations.old violations.new (limit_value_violations (context_in context.entry) (records_in context.entry ty) (view_at context.entry.sheet.now i).place (view_at context.entry.sheet.now j)) }
{
    if !is_number(context, j) {
        return;
    }
    let value = sheet::value(context.sheet, j);
    violations.tell_if(value == 0, context.sheet, i, Rule::LimitZero);
    let capped = types::is_limit_capped_type(context.sheet, ty);
    let exceeds = (Sheet::MAX_LIMIT < value) & capped;
    violations.tell_if(exceeds, context.sheet, i, Rule::LimitExceedsGlobal);
}

// Adds what is wrong with each argument of the limit at the first record, for that type. They are the records after it, up to the next annotation.
#[tactic(auto, using(types::proofs::Left::leaves_all, types::proofs::EachRecord::leaves_next))]
pub fn check_limit_value(
    context: ValidationContext,
    violations: &mut Violations,
    annotation: RecordRange,
    ty: RecordRange,
)
    ensures { Adds violations.old violations.new (limit_violations (context_in context.entry) (records_in context.entry ty) (annotation_in context.entry annotation)) }
{
    let arguments = arguments(context.sheet, annotation);
    for j in arguments.start..arguments.end {
        check_argument(context, violations, annotation.start, j, ty);
    }
}
