// The file of cases, read in order. The top of compare/src/cases_file.rs describes it.
//
// No contract can say what a read brings; what is made of the bytes stands in `recorded`.
use recorded::{Case, VIOLATION};
use rules::{AnswerValues, Sheet, Violation};
use std::io::Read;

// The buffers' lengths: the longest sheet, names text and violations of a recorded case.
const SHEET: usize = Sheet::MAX_LEN + Sheet::RECORD;

const NAMES: usize = Sheet::MAX_NAMES_LEN + 1;

const VIOLATIONS: usize = VIOLATION * Violation::MOST;

// The file ends too early, or is not as it must be.
#[derive(Clone, Copy, Debug)]
pub struct Fault;

// Reads four bytes as a number; none where the file ends. A read that fails where the number is due counts as the end, one that fails
// within it as a fault.
fn number_or_end(file: &mut impl Read) -> Result<Option<u32>, Fault> {
    let mut four = [0u8; 4];
    match file.read(&mut four) {
        Ok(0) | Err(_) => Ok(None),
        Ok(got) => {
            read_exact(file, &mut four[got..])?;
            Ok(Some(recorded::number(&four)))
        }
    }
}

// Reads four bytes as a number.
fn next_number(file: &mut impl Read) -> Result<u32, Fault> {
    number_or_end(file)?.ok_or(Fault)
}

// Fills the buffer.
fn read_exact(file: &mut impl Read, buffer: &mut [u8]) -> Result<(), Fault> {
    file.read_exact(buffer).map_err(|_| Fault)
}

// Reads that many bytes into the buffer; a fault where it has no room for them.
fn next_part<'a>(
    file: &mut impl Read,
    len: usize,
    buffer: &'a mut [u8],
) -> Result<&'a [u8], Fault> {
    let part = buffer.get_mut(..len).ok_or(Fault)?;
    read_exact(file, part)?;
    Ok(part)
}

// Reads the four numbers of an answer that the check can give.
fn next_answer(file: &mut impl Read) -> Result<AnswerValues, Fault> {
    let answer = AnswerValues {
        number: next_number(file)?,
        index: next_number(file)?,
        total: next_number(file)?,
        errors: next_number(file)?,
    };
    if recorded::is_answer(answer) {
        Ok(answer)
    } else {
        Err(Fault)
    }
}

// Reads the file's first 16 bytes, and answers how many cases it says that there are. The count has eight bytes; files of more than 32 bits tell are none.
pub fn start(file: &mut impl Read) -> Result<u32, Fault> {
    let first = next_number(file)?;
    let second = next_number(file)?;
    // Judged before the count is read: on a pipe that read may wait.
    if !recorded::is_magic(first, second) {
        return Err(Fault);
    }
    let count = next_number(file)?;
    let high = next_number(file)?;
    if high == 0 { Ok(count) } else { Err(Fault) }
}

// Whether nothing is left.
pub fn is_end(file: &mut impl Read) -> bool {
    matches!(number_or_end(file), Ok(None))
}

// The buffers that a case's parts are read into.
#[derive(Drop)]
pub struct Buffers {
    sheet: [u8; SHEET],
    names: [u8; NAMES],
    violations: [u8; VIOLATIONS],
}

impl Buffers {
    // Buffers with room for every recorded case.
    pub fn new() -> Self {
        Buffers {
            sheet: [0; SHEET],
            names: [0; NAMES],
            violations: [0; VIOLATIONS],
        }
    }

    // Reads the next case.
    pub fn next_case<'a>(&'a mut self, file: &mut impl Read) -> Result<Case<'a>, Fault> {
        let Buffers {
            sheet,
            names,
            violations,
        } = self;
        let len = next_number(file)?;
        let sheet = next_part(file, len as usize, sheet)?;
        let len = next_number(file)?;
        let names = next_part(file, len as usize, names)?;
        let answer = next_answer(file)?;
        let violations = next_part(file, VIOLATION * answer.total as usize, violations)?;
        Ok(Case {
            sheet,
            names,
            answer,
            violations,
        })
    }
}
