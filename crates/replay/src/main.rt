// Reads the file `cases` of recorded answers, calls the check for each case with five list buffers, names the cases whose answer or list is
// not the recorded one, and writes what the cases come to.
#![tactic(auto)]

mod input;
mod output;
mod tally;

use input::Buffers;
use recorded::{BUFFERS, Case, LIST};
use std::io::Read;
use std::{fs, io};
use tally::{Ending, Tally};

// The tally with a case more. Names the case if a buffer or an answer is not the recorded one. The list is an array, as `same_buffers` takes it.
fn judged(rt: &impl Print, tally: Tally, case: &Case, list: &mut [u8; LIST]) -> io::Result<Tally> {
    let same = recorded::same_buffers(case, list);
    let single = recorded::is_single_field(case.sheet);
    if same != BUFFERS {
        let found = validate::vexil_check(case.sheet, case.names, list);
        output::differing(rt, tally.cases, case.answer, found)?;
    }
    Ok(tally.with(case.answer, same, single))
}

// The tally of the next `count` cases, up to one that is not as it must be, and where they end.
fn replayed(rt: &impl Print, file: &mut impl Read, count: u32) -> io::Result<(Tally, Ending)> {
    let mut buffers = Buffers::new();
    let mut list = [0u8; LIST];
    let mut tally = Tally::new();
    for _ in 0..count {
        let Ok(case) = buffers.next_case(file) else {
            return Ok((tally, Ending::Broken));
        };
        tally = judged(rt, tally, &case, &mut list)?;
    }
    let ending = if input::is_end(file) {
        Ending::Whole
    } else {
        Ending::Broken
    };
    Ok((tally, ending))
}

// Writes what the file holds.
fn replay(rt: &impl Print, file: &mut impl Read) -> io::Result<()> {
    match input::start(file) {
        Ok(count) => {
            let (tally, ending) = replayed(rt, file, count)?;
            print!(rt; "{tally}{ending}")
        }
        Err(_) => rt.println("no file of cases"),
    }
}

fn main(rt: HostRuntime) -> io::Result<()> {
    let path = "cases";
    let mut file = match fs::open(&rt, path) {
        Ok(file) => file,
        Err(error) => return eprintln!(rt; "{path}: {error}"),
    };
    replay(&rt, &mut file)
}
