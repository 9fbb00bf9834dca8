// The lines, each put behind a text whose buffer has room for the longest such line.
ghost use Rattle.std.specs.Prelude.{◌≡◌, ◌+◌, ◌*◌, ◌≤◌, length};
ghost use Rattle.rules.specs.Buffer.{violation_size};
ghost use Rattle.rules.specs.Printed.{severity_letter, violation_line};
ghost use Rattle.report.specs.Put.{Adds};
ghost use Rattle.report.specs.Lines.{max_line, pair_line, violation_lines};

use crate::decode::violation;
use crate::text::Text;
use rules::Violation;

// The letter of a severity.
fn severity_letter(severity: u8) -> u8
    ensures { result ≡ severity_letter severity }
{
    if severity == Violation::ERROR {
        b'E'
    } else {
        b'W'
    }
}

// Puts the line of a violation: class, letter, offset and length.
fn put_violation(text: &mut Text, violation: Violation)
    requires { text.old.len + max_line ≤ length text.old.buffer.now }
    ensures adds { Adds text.old text.new (violation_line violation) }
    ensures short { text.new.len ≤ text.old.len + max_line }
{
    text.put_decimal(u32::from(violation.class));
    text.put(b" ");
    text.put(&[severity_letter(violation.severity)]);
    text.put(b" ");
    text.put_decimal(violation.span.offset);
    text.put(b" ");
    text.put_decimal(violation.span.len);
    text.put(b"\n");
}

// Puts the lines of the first `n` violations of the list. It goes by index: of `list.chunks_exact(..).take(n)` a turn knows the state of the iterator, and not how
// many violations it has passed, so that the proof that one line more has room did not close.
#[tactic(auto, using(crate::proofs::LineTexts::lines_none), unfolding(crate::specs::Put::put))]
pub fn put_violations(text: &mut Text, list: &[u8], n: usize)
    requires { (text.old.len + max_line * n ≤ length text.old.buffer.now) × (violation_size * n ≤ length list.now) }
    ensures adds { Adds text.old text.new (violation_lines n list.now) }
    ensures short { text.new.len ≤ text.old.len + max_line * n }
{
    for i in 0..n {
        put_violation(text, violation(&list[Violation::SIZE * i..]));
    }
}

// Puts a line of two numbers, each behind its word.
pub fn put_pair(text: &mut Text, first: &[u8], a: u32, second: &[u8], b: u32)
    requires { text.old.len + length first.now + length second.now + 21 ≤ length text.old.buffer.now }
    ensures adds { Adds text.old text.new (pair_line first.now a second.now b) }
    ensures short { text.new.len ≤ text.old.len + length first.now + length second.now + 21 }
{
    text.put(first);
    text.put_decimal(a);
    text.put(second);
    text.put_decimal(b);
    text.put(b"\n");
}
