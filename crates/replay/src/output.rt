// The line of a case that differs.
use rules::AnswerValues;
use std::{fmt, io};

// An answer, written by its numbers.
#[derive(Clone, Copy)]
struct Numbers(AnswerValues);

impl fmt::Display for Numbers {
    fn fmt<W: fmt::Write>(&self, f: &mut fmt::Formatter<W>) -> fmt::Result {
        let AnswerValues {
            number,
            index,
            total,
            errors,
        } = self.0;
        write!(
            f,
            "number {number} index {index} total {total} errors {errors}"
        )
    }
}

// Names a case by its index in the file, from 0, with the recorded answer and the check's.
pub fn differing(
    rt: &impl Print,
    index: u64,
    recorded: AnswerValues,
    checked: AnswerValues,
) -> io::Result<()> {
    let recorded = Numbers(recorded);
    let checked = Numbers(checked);
    println!(rt; "case {index} differs: recorded {recorded}, checked {checked}")
}
