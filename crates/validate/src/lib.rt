// The check of a declaration: a sheet and a names text are turned down, or every violation is listed.
#![tactic(auto)]

ghost use Rattle.validate.specs.Answered.{Answered, IsBytes};

mod whole;

use rules::AnswerValues;
pub use whole::check;

// The check, as numbers, which `dilomevay` exports for callers in other languages. The list gets the violations that fit it, in whole records;
// a call that is refused changes no byte of it.
#[tactic(auto, using(crate::proofs::Answers::told_answered))]
pub fn vexil_check(sheet: &[u8], names: &[u8], list: &mut [u8]) -> AnswerValues
    ensures answered { Answered sheet.now names.now list.old result list.new }
    ensures bytes { IsBytes sheet.now }
{
    AnswerValues::from(check(sheet, names, list))
}
