// Flags: rule 34.
ghost use Rattle.rules.specs.Bodies.{flags_violations};
ghost use Rattle.names.specs.Known.{context_in, records_in};
ghost use Rattle.names.specs.View.{view_at};
ghost use Rattle.diagnostic.specs.Violations.{Adds};
ghost use Rattle.bodies.specs.Bit.{bit_found};

use diagnostic::Violations;
use lists::WholeRecords;
use rules::{Rule, Sheet};
use sheet::kinds;

// Adds rule 34, if record `i` is a bit whose position is too high.
#[tactic(auto, unfolding(crate::specs::Bit::bit_found, names::specs::View::view_at))]
fn check_bit(sheet: &[u8], violations: &mut Violations, i: usize)
    ensures { Adds violations.old violations.new (bit_found (view_at sheet.now i)) }
{
    let bad = (sheet::kind(sheet, i) == kinds::VARIANT) & (Sheet::MAX_BIT < sheet::value(sheet, i));
    violations.tell_ordinal_if(bad, sheet, i, Rule::FlagsBitTooHigh);
}

// Adds what is wrong with the flags.
#[tactic(auto, using(types::proofs::Left::leaves_all, types::proofs::EachRecord::leaves_next, types::proofs::EachRecord::leaves_end, crate::proofs::Bits::flags_bits))]
pub fn check_flags(body: WholeRecords, violations: &mut Violations)
    ensures { Adds violations.old violations.new (flags_violations (context_in body.entry.context) (records_in body.entry.context body.entry.range)) }
{
    for i in body.range.start..body.range.end {
        check_bit(body.context.sheet, violations, i);
    }
}
