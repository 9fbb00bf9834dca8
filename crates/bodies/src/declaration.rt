// The declaration that a sheet holds.
ghost use Rattle.std.specs.Prelude.{◌/◌, length, leb};
ghost use Rattle.rules.specs.Words.{only_if};
ghost use Rattle.rules.specs.Record.{record_size};
ghost use Rattle.rules.specs.Head.{body_of};
ghost use Rattle.rules.specs.Refusals.{max_length};
ghost use Rattle.rules.specs.Bodies.{body_violations, violations_of};
ghost use Rattle.names.specs.Known.{context_in, records_in};
ghost use Rattle.names.specs.View.{view_of};
ghost use Rattle.diagnostic.specs.Violations.{Adds};

use crate::enums::check_enum;
use crate::flags::check_flags;
use crate::message::check_message;
use crate::newtype::check_newtype;
use crate::runs::{is_before_head, run_end};
use crate::unions::check_union;
use diagnostic::Violations;
use lists::WholeRecords;
use names::ValidationContext;
use rules::{RecordRange, Sheet};
use sheet::subs;

// Adds what is wrong with the body, whose head has that sub.
#[tactic(auto, unfolding(rules::specs::Bodies::body_violations))]
fn check_body(body: WholeRecords, violations: &mut Violations, sub: u8)
    ensures { Adds violations.old violations.new (body_violations (context_in body.entry.context) (body_of sub) (records_in body.entry.context body.entry.range)) }
{
    match sub {
        subs::MESSAGE => check_message(body, violations),
        subs::ENUM => check_enum(body, violations),
        subs::FLAGS => check_flags(body, violations),
        subs::UNION => check_union(body, violations),
        _ => check_newtype(body, violations),
    }
}

// Adds what is wrong with the declaration that the sheet holds; nothing if the sheet is longer than row 1 allows.
pub fn check_declaration(context: ValidationContext, violations: &mut Violations)
    ensures { Adds violations.old violations.new (only_if (leb (length context.entry.sheet.now) max_length) (violations_of (context_in context.entry) (view_of context.entry.sheet.now 0 (length context.entry.sheet.now / record_size)))) }
{
    if Sheet::MAX_LEN < context.sheet.len() {
        return;
    }
    let records = WholeRecords {
        context,
        range: RecordRange {
            start: 0,
            end: sheet::records(context.sheet),
        },
    };
    let head = run_end(records, is_before_head);
    if records.range.end <= head {
        return;
    }
    let sub = sheet::sub(context.sheet, head);
    check_body(records.behind(head), violations, sub);
}
