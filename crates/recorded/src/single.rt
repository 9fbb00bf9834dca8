// Messages with one field.
ghost use Rattle.std.specs.Prelude.{◌≡◌};
ghost use Rattle.recorded.specs.Replay.{records_of, is_single_field};

use sheet::kinds::{FIELD, HEAD};
use sheet::subs::MESSAGE;

// How many records are of that kind and sub.
fn records_of(sheet: &[u8], kind: u8, sub: u8) -> usize
    ensures { result ≡ records_of kind sub sheet.now }
{
    (0..sheet::records(sheet))
        .filter(|i| sheet::kind(sheet, *i) == kind && sheet::sub(sheet, *i) == sub)
        .count()
}

// Whether the sheet is a message with one field.
#[tactic(auto, unfolding(crate::specs::Replay::is_single_field))]
pub fn is_single_field(sheet: &[u8]) -> bool
    ensures { result ≡ is_single_field sheet.now }
{
    records_of(sheet, HEAD, MESSAGE) == 1 && records_of(sheet, FIELD, 0) == 1
}
