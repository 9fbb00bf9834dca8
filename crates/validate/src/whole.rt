// The whole check.
ghost use Rattle.rules.specs.Answer.{values_of};
ghost use Rattle.validate.specs.Answered.{Answered};

use diagnostic::Violations;
use names::{NameTable, ValidationContext};
use rules::Answer;

// Answers for a sheet and a names text, and lists the violations.
#[tactic(auto, using(crate::proofs::Answers::refused_told, crate::proofs::Answers::refused_kept))]
pub fn check(sheet: &[u8], names: &[u8], list: &mut [u8]) -> Answer
    ensures { Answered sheet.now names.now list.old (values_of result) list.new }
{
    let mut table = NameTable::new();
    refusals::accept(sheet, names, &mut table)?;
    let context = ValidationContext {
        sheet,
        table: &table,
    };
    let mut violations = Violations::new(list);
    bodies::check_declaration(context, &mut violations);
    Ok(violations.counts)
}
