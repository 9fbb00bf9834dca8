// One violation more: in the list, as a record of its bytes, and in the counts.
ghost use Rattle.std.specs.Prelude.{◌≡◌};
ghost use Rattle.diagnostic.specs.Push.{stored, counted};

use crate::encode::encode;
use rules::{Counts, Violation};

// Writes the violation as record number `index`, if the list has room for that record. The test is not `get_mut`'s: of a range it promises that the list keeps its
// length, and not which bytes stand in it, so that the proof did not close.
pub fn store(list: &mut [u8], index: u32, violation: Violation)
    ensures { list.new ≡ stored violation index list.old }
{
    let at = Violation::SIZE * (index as usize);
    if list.len() < at + Violation::SIZE {
        return;
    }
    list[at..at + Violation::SIZE].copy_from_slice(&encode(violation));
}

// The counts with one violation more, of that severity.
#[tactic(auto, unfolding(crate::specs::Push::counted))]
pub fn count_one(counts: Counts, severity: u8) -> Counts
    ensures { result ≡ counted severity counts }
{
    Counts {
        total: counts.total.wrapping_add(1),
        errors: counts
            .errors
            .wrapping_add(u32::from(severity == Violation::ERROR)),
    }
}
