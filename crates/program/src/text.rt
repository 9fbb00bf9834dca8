// All that is printed of a sheet and a names text.
ghost use Rattle.std.specs.Prelude.{◌≡◌, ◌++◌, ◌≤◌, length, drop};
ghost use Rattle.rules.specs.Printed.{printed};

use report::SIZE;
use rules::Violation;

// The bytes that always hold the list.
const LIST: usize = Violation::SIZE * Violation::MOST;

// Writes the lines to the start of `out`, whose other bytes are kept, and returns how many bytes they are. A slice of `out` could not say
// that the others are kept.
pub fn lines(sheet: &[u8], names: &[u8], out: &mut [u8; SIZE]) -> usize
    ensures { (result ≡ length (printed sheet.now names.now)) × (out.new ≡ printed sheet.now names.now ++ drop result out.old) × (result ≤ length out.new) }
{
    let mut list = [0u8; LIST];
    let values = validate::vexil_check(sheet, names, &mut list);
    report::report(values, &list, out)
}
