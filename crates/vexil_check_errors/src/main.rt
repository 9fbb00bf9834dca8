// The program, run on a body with errors and a warning: the message of `data/body.vexil`, in whose text the spans lie.
// It is a crate of its own, since `rt ci` runs a crate's program once, in the folder `data/` beside its `src/`.
#![tactic(auto)]

use std::io;

fn main(rt: HostRuntime) -> io::Result<()> {
    program::run(&rt)
}
