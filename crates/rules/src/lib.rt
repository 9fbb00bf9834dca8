// The types of the check: spans, sheets, violations and answers, with the numbers of document 01 as their constants.
// What they mean is defined in `specs/`, and the theorems over those definitions stand in `proofs/`.
#![tactic(auto)]

mod answer;
mod range;
mod rule;
mod sheet;
mod span;
mod violation;

pub use answer::{Answer, AnswerValues, Counts, Refusal, Refused};
pub use range::RecordRange;
pub use rule::Rule;
pub use sheet::Sheet;
pub use span::Span;
pub use violation::Violation;
