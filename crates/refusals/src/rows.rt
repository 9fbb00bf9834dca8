// The nine rows.
ghost use Rattle.std.specs.Prelude.{◌≡◌};
ghost use Rattle.rules.specs.Refusals.{refusal};
ghost use Rattle.names.specs.NameTable.{name_table};
ghost use Rattle.names.specs.View.{context_by};
ghost use Rattle.names.specs.SameEnds.{SameEnds};
ghost use Rattle.refusals.specs.Pass.{verdict_of};
ghost use Rattle.refusals.specs.Turned.{refusal_by};
ghost use Rattle.refusals.specs.Left.{LeftBy};

use crate::chain::endless;
use crate::order::refused_at;
use crate::pass::first_fault;
use names::NameTable;
use rules::{Refusal, Refused, Sheet};

// Why the sheet and the names text are turned down, if they are; the table says what is declared. Row 9 has it lead to the ends of chains.
fn refuse(sheet: &[u8], names: &[u8], table: &mut NameTable) -> Result<(), Refused>
    requires { table.old ≡ name_table sheet.now names.now }
    ensures told { verdict_of result ≡ refusal_by table.old sheet.now names.now }
    ensures left { LeftBy (verdict_of result) sheet.now table.old table.new }
    ensures ends { SameEnds (context_by table.old sheet.now) (context_by table.new sheet.now) }
{
    let lengths = Sheet::new(sheet.len(), names.len());
    if lengths.is_wrong_length() {
        return Err(refused_at(Refusal::SheetLength, 0)); // row 1
    }
    if lengths.is_long_names() {
        return Err(refused_at(Refusal::NamesLength, 0)); // row 2
    }
    let end = first_fault(sheet, names, table)?;
    endless(sheet, table, end) // row 9
}

// Whether the sheet and the names text are accepted, and if not, by which row at which record. The table of names is filled in any case. Where none of
// rows 1 to 8 refuses, it may lead from types to the ends of their chains at once, and is otherwise the filled one.
#[tactic(auto, using(crate::proofs::RefusalFilled::told_by_filled, crate::proofs::RefusalFilled::left_by_filled, crate::proofs::RefusalFilled::ends_by_filled))]
pub fn accept(sheet: &[u8], names: &[u8], table: &mut NameTable) -> Result<(), Refused>
    ensures told { verdict_of result ≡ refusal sheet.now names.now }
    ensures left { LeftBy (verdict_of result) sheet.now (name_table sheet.now names.now) table.new }
    ensures ends { SameEnds (context_by (name_table sheet.now names.now) sheet.now) (context_by table.new sheet.now) }
{
    names::fill(sheet, names, table);
    refuse(sheet, names, table)
}
