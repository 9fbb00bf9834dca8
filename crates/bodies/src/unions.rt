// A union: rules 35 and 36, and the fields of its variants.
ghost use Rattle.rules.specs.Words.{front};
ghost use Rattle.rules.specs.Bodies.{field_list_violations, union_violations};
ghost use Rattle.names.specs.Known.{context_in, records_in};
ghost use Rattle.diagnostic.specs.Violations.{Adds};
ghost use Rattle.bodies.specs.Runs.{in_item};

use crate::message::check_message_body;
use crate::runs::{is_variant_part, run_end};
use crate::variants::check_variants;
use diagnostic::Violations;
use lists::{MetNames, OrdinalRules, WholeRecords};
use sheet::kinds;

// Adds what is wrong with the fields of the variant whose parts the records start with, by the names lent for them.
fn check_fields<'a>(rest: WholeRecords<'a>, violations: &mut Violations, names: &mut MetNames<'a>)
    ensures { Adds violations.old violations.new (field_list_violations (context_in rest.entry.context) (front in_item (records_in rest.entry.context rest.entry.range))) }
{
    let end = run_end(rest, is_variant_part);
    check_message_body(rest.part(rest.range.start, end), violations, names);
}

// Adds what is wrong with the union. The names of fields are kept in one place, which serves one variant after the other.
pub fn check_union(body: WholeRecords, violations: &mut Violations)
    ensures { Adds violations.old violations.new (union_violations (context_in body.entry.context) (records_in body.entry.context body.entry.range)) }
{
    let mut names = MetNames::new(body.context, kinds::FIELD, body.range.start);
    check_variants(body, violations, OrdinalRules::UNION, |rest, violations| {
        check_fields(rest, violations, &mut names);
    });
}
