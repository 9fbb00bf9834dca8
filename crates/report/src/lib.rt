// The lines that the program prints of an answer and its list.
#![tactic(auto)]

mod answer;
mod decode;
mod lines;
mod text;

pub use answer::{SIZE, report};
