// All the lines of an answer.
ghost use Rattle.std.specs.Prelude.{◌≡◌, ◌++◌, ◌+◌, ◌*◌, ◌≤◌, length, drop};
ghost use Rattle.rules.specs.Answer.{max_total};
ghost use Rattle.rules.specs.Buffer.{violation_size};
ghost use Rattle.report.specs.Put.{Adds};
ghost use Rattle.report.specs.Lines.{max_text, lines_of, told_of};

use crate::lines::{put_pair, put_violations};
use crate::text::Text;
use rules::{AnswerValues, Violation};

// The bytes of the longest line.
const LINE: usize = 35;

// The bytes of the longest text: the violations that are told and the counts, each a line.
pub const SIZE: usize = LINE * (Violation::MOST + 1);

// How many violations are told of so many, in a list of that length.
fn told(total: u32, len: usize) -> usize
    ensures { (result ≡ told_of total len) × (result ≤ max_total) × (violation_size * result ≤ len) }
{
    (total as usize)
        .min(len / Violation::SIZE)
        .min(Violation::MOST)
}

// Puts the lines behind a text. It goes by the number, 0 where the sheet is accepted: `report` takes any four numbers, and an `Answer` would ask more of its callers.
fn put_lines(text: &mut Text, values: AnswerValues, list: &[u8])
    requires { text.old.len + max_text ≤ length text.old.buffer.now }
    ensures adds { Adds text.old text.new (lines_of values list.now) }
    ensures short { text.new.len ≤ text.old.len + max_text }
{
    if values.number == 0 {
        put_violations(text, list, told(values.total, list.len()));
        put_pair(text, b"total ", values.total, b" errors ", values.errors);
    } else {
        put_pair(text, b"refused ", values.number, b" at ", values.index);
    }
}

// Writes the lines to the start of `out`, whose other bytes are kept, and returns how many bytes they are. A slice of `out` could not say
// that the others are kept.
pub fn report(values: AnswerValues, list: &[u8], out: &mut [u8; SIZE]) -> usize
    ensures { (result ≡ length (lines_of values list.now)) × (out.new ≡ lines_of values list.now ++ drop result out.old) × (result ≤ length out.new) }
{
    let mut text = Text::new(out);
    put_lines(&mut text, values, list);
    text.len
}
