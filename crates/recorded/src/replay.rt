// The check, called again for a recorded case.
ghost use Rattle.std.specs.Prelude.{◌≡◌, ◌≤◌, ◌<◌, length, get_or};
ghost use Rattle.recorded.specs.Answer.{same_values};
ghost use Rattle.recorded.specs.Buffer.{marks};
ghost use Rattle.recorded.specs.Replay.{is_same, buffer_lengths, same_buffers, list_after};
ghost use Rattle.rules.specs.Buffer.{buffer_after};

use crate::buffer::{fill, is_after};
use rules::{AnswerValues, Violation};

// How many buffers the check is called with.
pub const BUFFERS: usize = 5;

// The length of the longest: more than any list has.
pub const LIST: usize = Violation::SIZE * Violation::MOST + 29;

// A recorded call of the check: what it was called with, its answer, and the violations of its list as the file has them.
#[derive(Clone, Copy)]
pub struct Case<'a> {
    pub sheet: &'a [u8],
    pub names: &'a [u8],
    pub answer: AnswerValues,
    pub violations: &'a [u8],
}

// Whether the check answers what was recorded and leaves this buffer so.
#[tactic(auto, unfolding(crate::specs::Replay::is_same))]
fn is_same(case: &Case, list: &mut [u8]) -> bool
    ensures same { result ≡ is_same case.now.sheet.now case.now.names.now case.now.answer case.now.violations.now (length list.old) }
    ensures left { list.new ≡ buffer_after case.now.sheet.now case.now.names.now (marks (length list.old)) }
{
    fill(list);
    let answer = validate::vexil_check(case.sheet, case.names, list);
    case.answer == answer && is_after(case.violations, list)
}

// The lengths of the buffers, for so many violations.
#[tactic(auto, unfolding(crate::specs::Replay::buffer_lengths))]
fn buffer_lengths(total: u32) -> [usize; BUFFERS]
    ensures { result ≡ buffer_lengths total }
{
    let most = Violation::MOST.min(total as usize);
    let half = Violation::SIZE * (most / 2);
    [0, half, half + 7, Violation::SIZE * most, LIST]
}

// How many of the five buffers are the same, each the start of a list with room for it. The list is then as the last call, whose buffer is all of it, leaves it.
// It is an array, since a slice would have to be asked to be so long.
#[tactic(auto, using(crate::proofs::Lengths::length_fits), unfolding(crate::specs::Replay::same_buffers, rules::specs::Words::select))]
pub fn same_buffers(case: &Case, list: &mut [u8; LIST]) -> usize
    ensures same { result ≡ same_buffers case.now.sheet.now case.now.names.now case.now.answer case.now.violations.now }
    ensures left { list.new ≡ list_after case.now.sheet.now case.now.names.now }
{
    let mut same = 0;
    // No `filter`, whose closure would lend a part of the list that it was lent itself: the prover does not cover that yet.
    for len in buffer_lengths(case.answer.total) {
        if is_same(case, &mut list[..len]) {
            same += 1;
        }
    }
    same
}
