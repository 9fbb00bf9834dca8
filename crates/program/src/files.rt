// The files of the current folder. No contract can say what a read brings; what is made of the bytes stands in `text`.
ghost use Rattle.std.specs.Prelude.{◌≤◌, length};

use crate::text::lines;
use report::SIZE;
use rules::Sheet;
use std::io::{ErrorKind, Read};
use std::rt::Files;
use std::{fs, io};

// One byte more than is accepted, so that a longer file is refused by row 1 or 2.
const SHEET: usize = Sheet::MAX_LEN + 1;

const NAMES: usize = Sheet::MAX_NAMES_LEN + 1;

// Says why a file cannot be opened, unless it is missing. Where that cannot be said, nothing is.
fn explain(rt: &impl Eprint, path: &str, error: io::Error) {
    if error.kind() != ErrorKind::NotFound {
        let _ = eprintln!(rt; "{path}: {error}");
    }
}

// Reads until `buf` is full, the file ends or a read fails, and returns the bytes that were read.
fn read_full<'a>(file: &mut impl Read, buf: &'a mut [u8]) -> &'a [u8]
    ensures { length result.now ≤ length buf.old }
{
    let mut done = 0;
    // No `read_exact`, which does not say how much it read where the file ends.
    while done < buf.len() {
        match file.read(&mut buf[done..]) {
            Ok(0) | Err(_) => break,
            Ok(n) => done += n,
        }
    }
    &buf[..done]
}

// Returns the first bytes of a file, as many as `buf` holds. A missing file is empty.
fn read<'a>(rt: &(impl Files + Eprint), path: &str, buf: &'a mut [u8]) -> &'a [u8]
    ensures { length result.now ≤ length buf.old }
{
    match fs::open(rt, path) {
        Ok(mut file) => read_full(&mut file, buf),
        Err(error) => {
            explain(rt, path, error);
            &[]
        }
    }
}

// Prints the lines of `body.sheet` and `body.names`.
pub fn run(rt: &(impl Files + Print + Eprint)) -> io::Result<()> {
    let mut sheet = [0u8; SHEET];
    let mut names = [0u8; NAMES];
    let mut out = [0u8; SIZE];
    let sheet = read(rt, "body.sheet", &mut sheet);
    let names = read(rt, "body.names", &mut names);
    let n = lines(sheet, names, &mut out);
    rt.write_all(&out[..n])
}
