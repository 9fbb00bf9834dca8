// An enum: rules 31 to 33.
ghost use Rattle.std.specs.Prelude.{◌≡◌, ltb};
ghost use Rattle.rules.specs.Words.{any_of};
ghost use Rattle.rules.specs.Bodies.{backing_max, body_items, slots, used_ordinals, enum_violations};
ghost use Rattle.names.specs.View.{view_at, view_of};
ghost use Rattle.names.specs.Known.{context_in, records_in};
ghost use Rattle.diagnostic.specs.Violations.{Adds};
ghost use Rattle.bodies.specs.Backing.{narrow_found, backings_from};

use crate::variants::check_variants;
use diagnostic::Violations;
use lists::{OrdinalRules, WholeRecords};
use rules::{RecordRange, Rule, Sheet};
use sheet::{kinds, subs};

// The greatest ordinal that a backing of that sub holds.
#[tactic(auto, unfolding(rules::specs::Words::look_up))]
fn backing_max(sub: u8) -> u64
    ensures { result ≡ backing_max sub }
{
    match sub {
        subs::U8_BACKING => Sheet::MAX_U8_BACKING,
        subs::U16_BACKING => Sheet::MAX_U16_BACKING,
        subs::U32_BACKING => Sheet::MAX_U32_BACKING,
        subs::U64_BACKING => Sheet::MAX_U64_BACKING,
        _ => 0,
    }
}

// Whether a variant of the body has an ordinal over `max`.
fn is_narrow(sheet: &[u8], body: RecordRange, max: u64) -> bool
    ensures { result ≡ any_of (ltb max) (used_ordinals (slots (body_items (view_of sheet.now body.start body.end)))) }
{
    (body.start..body.end).any(|i| {
        (sheet::kind(sheet, i) == kinds::VARIANT) & (max < sheet::value(sheet, i))
    })
}

// Adds rule 33, if record `i` is a backing too narrow for the variants of the body.
fn check_backing(sheet: &[u8], violations: &mut Violations, i: usize, body: RecordRange)
    ensures { Adds violations.old violations.new (narrow_found (view_of sheet.now body.start body.end) (view_at sheet.now i)) }
{
    if sheet::kind(sheet, i) != kinds::BACKING {
        return;
    }
    let bad = is_narrow(sheet, body, backing_max(sheet::sub(sheet, i)));
    violations.tell_if(bad, sheet, i, Rule::EnumBackingTooNarrow);
}

// Adds rule 33 for the enum.
#[tactic(auto, using(types::proofs::Left::leaves_all, types::proofs::EachRecord::leaves_next, types::proofs::EachRecord::leaves_end))]
fn check_backings(sheet: &[u8], violations: &mut Violations, body: RecordRange)
    ensures { Adds violations.old violations.new (backings_from (view_of sheet.now body.start body.end) (view_of sheet.now body.start body.end)) }
{
    for i in body.start..body.end {
        check_backing(sheet, violations, i, body);
    }
}

// Adds what is wrong with the enum.
pub fn check_enum(body: WholeRecords, violations: &mut Violations)
    ensures { Adds violations.old violations.new (enum_violations (context_in body.entry.context) (records_in body.entry.context body.entry.range)) }
{
    check_variants(body, violations, OrdinalRules::ENUM, |_, _| {});
    check_backings(body.context.sheet, violations, body.range);
}
