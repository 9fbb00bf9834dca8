// The program, run on document 01's example with its two files exchanged: the sheet is the example's names text, one byte, and so no whole number of records.
// It is a crate of its own, since `rt ci` runs a crate's program once, in the folder `data/` beside its `src/`.
#![tactic(auto)]

use std::io;

fn main(rt: HostRuntime) -> io::Result<()> {
    program::run(&rt)
}
