// What the cases replayed so far come to.
use recorded::BUFFERS;
use rules::{AnswerValues, Refusal};
use std::fmt;

// How many refusals there are.
const REFUSALS: usize = Refusal::EndlessChain as usize;

#[derive(Clone, Copy)]
pub struct Tally {
    pub cases: u64,
    pub accepted: u64,
    // How many are refused by each number, from 1 on.
    pub refused: [u64; REFUSALS],
    // How many of the accepted ones are messages with one field.
    pub single: u64,
    pub violations: u64,
    // How many buffers the check was called with.
    pub buffers: u64,
    // How many of them, and of the answers with them, are as recorded.
    pub same: u64,
    // How many cases have one that is not.
    pub differing: u64,
}

impl Tally {
    // The tally of no cases.
    pub fn new() -> Self {
        Tally {
            cases: 0,
            accepted: 0,
            refused: [0; REFUSALS],
            single: 0,
            violations: 0,
            buffers: 0,
            same: 0,
            differing: 0,
        }
    }

    // With a case more, of which so many buffers are as recorded; `single` if its sheet is a message with one field. It goes by the number, as `Case` holds any four.
    pub fn with(mut self, told: AnswerValues, same: usize, single: bool) -> Self {
        match (told.number as usize).checked_sub(1) {
            None => {
                self.accepted = self.accepted.wrapping_add(1);
                self.single = self.single.wrapping_add(u64::from(single));
            }
            Some(row) => {
                if let Some(refused) = self.refused.get_mut(row) {
                    *refused = refused.wrapping_add(1);
                }
            }
        }
        self.cases = self.cases.wrapping_add(1);
        self.violations = self.violations.wrapping_add(u64::from(told.total));
        self.buffers = self.buffers.wrapping_add(BUFFERS as u64);
        self.same = self.same.wrapping_add(same as u64);
        self.differing = self.differing.wrapping_add(u64::from(same != BUFFERS));
        self
    }
}

// The lines that say what the cases come to.
impl fmt::Display for Tally {
    fn fmt<W: fmt::Write>(&self, f: &mut fmt::Formatter<W>) -> fmt::Result {
        let t = *self;
        writeln!(f, "cases {}", t.cases)?;
        writeln!(f, "accepted {}", t.accepted)?;
        for (i, refused) in t.refused.iter().enumerate() {
            writeln!(f, "refused {}: {refused}", i + 1)?;
        }
        writeln!(f, "messages of one field {}", t.single)?;
        writeln!(f, "violations {}", t.violations)?;
        writeln!(f, "buffers compared {}", t.buffers)?;
        writeln!(f, "buffers as recorded {}", t.same)?;
        writeln!(f, "cases differing {}", t.differing)
    }
}

// Where the cases end.
#[derive(Clone, Copy)]
pub enum Ending {
    // All that the file says that it has are there, and nothing else.
    Whole,
    Broken,
}

// The line that says so.
impl fmt::Display for Ending {
    fn fmt<W: fmt::Write>(&self, f: &mut fmt::Formatter<W>) -> fmt::Result {
        match self {
            Ending::Whole => writeln!(f, "the file is whole"),
            Ending::Broken => writeln!(f, "the file is broken after these cases"),
        }
    }
}
