// The program, run on document 01's example without its names text: the field's name lies beyond it.
// It is a crate of its own, since `rt ci` runs a crate's program once, in the folder `data/` beside its `src/`.
#![tactic(auto)]

use std::io;

fn main(rt: HostRuntime) -> io::Result<()> {
    program::run(&rt)
}
