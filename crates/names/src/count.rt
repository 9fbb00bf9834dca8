// How many records the table is about.
ghost use Rattle.std.specs.Prelude.{◌≡◌, ◌≤◌};
ghost use Rattle.rules.specs.Refusals.{max_records};
ghost use Rattle.names.specs.Parts.{known_count};

use rules::Sheet;

// The number of records, of which those past the 1024th do not count.
#[tactic(auto, unfolding(crate::specs::Parts::known_count))]
pub fn count(sheet: &[u8]) -> usize
    ensures { (result ≡ known_count sheet.now) × (result ≤ max_records) }
{
    sheet::records(sheet).min(Sheet::MAX_RECORDS)
}
