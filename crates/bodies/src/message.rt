// A field list: rules 1 to 30.
ghost use Rattle.std.specs.Prelude.{◌≡◌, ◌≤◌};
ghost use Rattle.rules.specs.Kind;
ghost use Rattle.rules.specs.Record.{is};
ghost use Rattle.rules.specs.Rule.{found_if};
ghost use Rattle.rules.specs.Bodies.{field_scheme, field_violations, field_list_violations};
ghost use Rattle.names.specs.Known.{context_in, records_in};
ghost use Rattle.names.specs.View.{view_at, view_of};
ghost use Rattle.diagnostic.specs.Violations.{Adds};
ghost use Rattle.lists.specs.Ordinal.{member_found};
ghost use Rattle.bodies.specs.Runs.{in_field, RunTo};

use crate::field::{check_bare, check_field, field_parts, is_bare};
use diagnostic::Violations;
use lists::{MetItem, MetNames, OrdinalRules, Seen, WholeRecords};
use rules::Rule;
use sheet::kinds;

// Adds rule 1, if record `i` is an invariant.
#[tactic(auto, unfolding(names::specs::View::view_at))]
fn check_invariant(sheet: &[u8], violations: &mut Violations, i: usize)
    ensures { Adds violations.old violations.new (found_if 1 (is Kind.Invariant (view_at sheet.now i)) (view_at sheet.now i).place) }
{
    let bad = sheet::kind(sheet, i) == kinds::INVARIANT;
    violations.tell_if(bad, sheet, i, Rule::InvariantUnsupported);
}

// Adds what is wrong with the ordinal and the name of the field: rules 2 to 5.
#[inline(always)]
fn check_ordinal_and_name(violations: &mut Violations, field: MetItem, renamed: bool)
    ensures { Adds violations.old violations.new (member_found field_scheme field.entry.meeting.tombstoned field.entry.meeting.met renamed (view_at field.entry.sheet.now field.entry.index)) }
{
    OrdinalRules::FIELD.check(violations, field);
    violations.tell_if(renamed, field.sheet, field.index, Rule::FieldNameDuplicate);
}

// Adds what is wrong with the parts of the field that the records start with, which is not bare, and returns where they end.
fn check_all_parts(rest: WholeRecords, violations: &mut Violations) -> usize
    ensures found { Adds violations.old violations.new (field_violations (context_in rest.entry.context) (view_of rest.entry.context.sheet.now rest.entry.range.start result)) }
    ensures end { RunTo in_field rest.entry.context.sheet.now rest.entry.range.start rest.entry.range.end result }
{
    let parts = field_parts(rest);
    check_field(rest.context, violations, parts);
    parts.condition.end
}

// Adds what is wrong with the parts of the field that the records start with, if it has any, and returns where they end. Those of a bare field are told
// without a call, and so it is inlined.
#[inline(always)]
fn check_parts(rest: WholeRecords, violations: &mut Violations) -> usize
    ensures found { Adds violations.old violations.new (field_violations (context_in rest.entry.context) (view_of rest.entry.context.sheet.now rest.entry.range.start result)) }
    ensures end { RunTo in_field rest.entry.context.sheet.now rest.entry.range.start rest.entry.range.end result }
{
    if is_bare(rest) {
        check_bare(rest, violations);
        return rest.range.start + 1;
    }
    check_all_parts(rest, violations)
}

// Adds what is wrong with the field list. The names that are lent for it may be those of another.
pub fn check_message_body<'a>(
    fields: WholeRecords<'a>,
    violations: &mut Violations,
    names: &mut MetNames<'a>,
)
    ensures { Adds violations.old violations.new (field_list_violations (context_in fields.entry.context) (records_in fields.entry.context fields.entry.range)) }
{
    names.restart(fields.context, kinds::FIELD, fields.range.start);
    let mut seen = Seen::fields(fields);
    seen.collect();
    let mut i = fields.range.start;
    // what is checked of a field says where to go on, which no `for` does
    while i < fields.range.end {
        let Some(field) = seen.meet(i) else {
            check_invariant(fields.context.sheet, violations, i);
            i += 1;
            continue;
        };
        let renamed = names.is_met(i);
        check_ordinal_and_name(violations, field, renamed);
        i = check_parts(fields.behind(i), violations);
    }
}

// Adds what is wrong with the message.
pub fn check_message(body: WholeRecords, violations: &mut Violations)
    ensures { Adds violations.old violations.new (field_list_violations (context_in body.entry.context) (records_in body.entry.context body.entry.range)) }
{
    let mut names = MetNames::new(body.context, kinds::FIELD, body.range.start);
    check_message_body(body, violations, &mut names);
}
