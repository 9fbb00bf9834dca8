// Whether a sheet and a names text are accepted, and if not, by which row at which record.
#![tactic(auto)]

mod bytes;
mod chain;
mod order;
mod own;
mod pass;
mod rows;
mod runs;

pub use rows::accept;
