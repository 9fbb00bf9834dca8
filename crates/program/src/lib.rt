// The program: it reads a sheet and its names text, and prints what the check finds.
#![tactic(auto)]

mod files;
mod text;

pub use files::run;
pub use text::lines;
