// The type that stands for a declared name.
ghost use Rattle.std.specs.Prelude.{◌≡◌, List, ℕ, ◌<◌};
ghost use Rattle.names.specs.Parts.{known, target_of};

use crate::count::count;
use sheet::subs;

// The place of the type that stands directly after the declaration at that place, if that renames a type; else 0. Both are places, as the table has them: an
// index would be made of the one here, and a place again of the other where it is stored.
#[tactic(auto, using(crate::proofs::Targets::targets))]
pub fn target(sheet: &[u8], place: usize) -> u16
    requires { 0 < place }
    ensures { (names : List ℕ) → result ≡ target_of (known sheet.now names) place }
{
    if count(sheet) <= place || !subs::is_renaming(sheet::sub(sheet, place - 1)) {
        return 0;
    }
    if sheet::is_type(sheet::kind(sheet, place)) {
        // a sheet has fewer records than 16 bits count
        (place + 1) as u16
    } else {
        0
    }
}
