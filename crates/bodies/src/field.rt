// A field by itself: rules 6 to 30.
ghost use Rattle.std.specs.Prelude.{◌≡◌, true, ◌+◌, ◌<◌, ◌≤◌};
ghost use Rattle.rules.specs.Annotations.{annotations_violations};
ghost use Rattle.rules.specs.Conditions.{condition_violations};
ghost use Rattle.rules.specs.Bodies.{field_violations};
ghost use Rattle.names.specs.Known.{context_in, records_in};
ghost use Rattle.names.specs.View.{view_of};
ghost use Rattle.diagnostic.specs.Violations.{Adds};
ghost use Rattle.bodies.specs.Runs.{in_field, RunTo};
ghost use Rattle.bodies.specs.Parts.{OptionalsTo, PartsAt, Bare};

use crate::runs::{is_annotation, is_field_part, optionals_end, run_end, type_end};
use diagnostic::Violations;
use lists::WholeRecords;
use names::ValidationContext;
use rules::RecordRange;
use sheet::kinds;

// Where the parts of a field stand, one after the other. The optionals that its type starts with end at `behind`.
#[derive(Clone, Copy)]
pub struct FieldParts {
    pub annotations: RecordRange,
    pub ty: RecordRange,
    pub behind: usize,
    pub condition: RecordRange,
}

// Adds what is wrong with the annotations of a field of that type, if there are any.
#[tactic(auto, using(crate::proofs::FieldParts::annotations_none))]
fn check_annotations(
    context: ValidationContext,
    violations: &mut Violations,
    annotations: RecordRange,
    ty: RecordRange,
)
    ensures { Adds violations.old violations.new (annotations_violations (context_in context.entry) (records_in context.entry ty) (records_in context.entry annotations)) }
{
    if !annotations.is_empty() {
        annotations::check_field_annotations(context, violations, annotations, ty);
    }
}

// The last of the optionals at records `start` up to `behind`, or `start` where there are none.
fn last_optional(start: usize, behind: usize) -> usize
    ensures { (start ≤ result) × (start < result → result + 1 ≡ behind) }
{
    usize::max(start, behind.saturating_sub(1))
}

// Adds what is wrong with the condition of a field of that type, if there is one. The type starts with optionals up to record `behind`, of which the last
// tells the rules as much as all.
fn check_condition(
    context: ValidationContext,
    violations: &mut Violations,
    condition: RecordRange,
    ty: RecordRange,
    behind: usize,
)
    requires { OptionalsTo context.sheet.now ty.start ty.end behind }
    ensures { Adds violations.old violations.new (condition_violations (context_in context.entry) (records_in context.entry ty) (records_in context.entry condition)) }
{
    if condition.is_empty() {
        return;
    }
    let told = RecordRange {
        start: last_optional(ty.start, behind),
        end: ty.end,
    };
    conditions::validate_where_expr(context, violations, condition, told);
}

// Whether the first of the records is a type without parts, and the only part of a field: the records end there, or another item comes next.
pub fn is_bare(rest: WholeRecords) -> bool
    ensures { result ≡ true → Bare rest.entry.context.sheet.now rest.entry.range.start rest.entry.range.end }
{
    if rest.range.is_empty() {
        return false;
    }
    let first = rest.range.start;
    if !matches!(rest.kind(first), kinds::PRIMITIVE..=kinds::NAMED) {
        return false;
    }
    let next = first + 1;
    if next == rest.range.end {
        return true;
    }
    sheet::is_field_item(rest.kind(next))
}

// Adds what is wrong with the first of the records, a type that is the only part of a field.
pub fn check_bare(rest: WholeRecords, violations: &mut Violations)
    requires { Bare rest.context.sheet.now rest.range.start rest.range.end }
    ensures { Adds violations.old violations.new (field_violations (context_in rest.entry.context) (view_of rest.entry.context.sheet.now rest.entry.range.start (rest.entry.range.start + 1))) }
{
    let first = rest.range.start;
    if rest.kind(first) == kinds::NAMED {
        types::check_named(rest.context, violations, first);
    }
}

// The parts of the field that the records start with, if it has any.
pub fn field_parts(rest: WholeRecords) -> FieldParts
    ensures start { result.annotations.start ≡ rest.entry.range.start }
    ensures end { RunTo in_field rest.entry.context.sheet.now rest.entry.range.start rest.entry.range.end result.condition.end }
    ensures parts { PartsAt rest.entry.context.sheet.now result }
{
    let start = rest.range.start;
    let type_start = run_end(rest, is_annotation);
    let behind = optionals_end(rest.from(type_start));
    let type_end = type_end(rest.from(behind));
    let end = run_end(rest.from(type_end), is_field_part);
    FieldParts {
        annotations: RecordRange {
            start,
            end: type_start,
        },
        ty: RecordRange {
            start: type_start,
            end: type_end,
        },
        behind,
        condition: RecordRange {
            start: type_end,
            end,
        },
    }
}

// Adds what is wrong with the type, the annotations and the condition of a field that has those parts.
pub fn check_field(context: ValidationContext, violations: &mut Violations, parts: FieldParts)
    requires { PartsAt context.sheet.now parts }
    ensures { Adds violations.old violations.new (field_violations (context_in context.entry) (view_of context.entry.sheet.now parts.annotations.start parts.condition.end)) }
{
    // the rules of types find nothing at optionals
    let behind_optionals = RecordRange {
        start: parts.behind,
        end: parts.ty.end,
    };
    types::check_field_type(context, violations, behind_optionals);
    check_annotations(context, violations, parts.annotations, parts.ty);
    check_condition(context, violations, parts.condition, parts.ty, parts.behind);
}
