// The recorded cases: how their file is read, and whether the check gives a case's answer and list again. The top of
// compare/src/cases_file.rs describes the file.
#![tactic(auto)]

mod buffer;
mod replay;
mod single;

ghost use Rattle.std.specs.Prelude.{◌≡◌, ◌<◌};
ghost use Rattle.recorded.specs.File.{number_of, is_magic};
ghost use Rattle.recorded.specs.Answer.{is_index, is_answer};

pub use buffer::VIOLATION;
pub use replay::{BUFFERS, Case, LIST, same_buffers};
use rules::{AnswerValues, Refusal, Sheet, Violation};
pub use single::is_single_field;

// The greatest number of a refusal.
const LAST_REFUSAL: u32 = Refusal::EndlessChain as u32;

// The number in four bytes, the lowest byte first. It is the library's; called by `replay` alone, whose reads no contract can tell of, it would leave the order of the
// file's bytes unproved.
#[tactic(auto, unfolding(crate::specs::File::number_of))]
pub fn number(b: &[u8; 4]) -> u32
    ensures { result ≡ number_of b.now }
{
    u32::from_le_bytes(*b)
}

// Whether the first two numbers of a file are those of a file of cases: the file is read by numbers of four bytes, these two as all others.
#[tactic(auto, unfolding(crate::specs::File::is_magic, crate::specs::File::number_of))]
pub fn is_magic(first: u32, second: u32) -> bool
    ensures { result ≡ is_magic first second }
{
    first == u32::from_le_bytes(*b"case") && second == u32::from_le_bytes(*b"s 1\n")
}

// Whether a refusal of that number can tell that index: by rows 1 and 2 it is 0, else a record's, or for an early end the count of the records.
#[tactic(auto, unfolding(crate::specs::Answer::is_index))]
fn is_index(number: u32, index: u32) -> bool
    ensures { result ≡ is_index number index }
{
    let index = index as usize;
    if number <= u32::from(Refusal::NamesLength) {
        index == 0
    } else {
        index < Sheet::MAX_RECORDS
            || index == Sheet::MAX_RECORDS && number == u32::from(Refusal::OutOfOrder)
    }
}

// Whether a check can answer so, of any four numbers, as a file may have any: an accepted sheet has index 0, no more violations than a list can have and
// no more errors than those, a refused one has an index and neither.
#[tactic(auto, unfolding(crate::specs::Answer::is_answer))]
pub fn is_answer(answer: AnswerValues) -> bool
    ensures { result ≡ is_answer answer.number answer.index answer.total answer.errors }
{
    if answer.number == 0 {
        answer.index == 0
            && answer.total as usize <= Violation::MOST
            && answer.errors <= answer.total
    } else {
        answer.number <= LAST_REFUSAL
            && is_index(answer.number, answer.index)
            && answer.total == 0
            && answer.errors == 0
    }
}
