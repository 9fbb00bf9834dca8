// The parts of the table. The records are read once, then what is noted at the ids is spread to all records. The table is changed while sheet and names text are
// read: a struct of the three, lent by `&mut`, would have to promise in each function that these are still the same.
ghost use Rattle.std.specs.Prelude.{◌≡◌, ◌++◌, List, ℕ, take, replicate};
ghost use Rattle.names.specs.View.{totals_from, table_size};
ghost use Rattle.names.specs.Notes.{Read};
ghost use Rattle.names.specs.Parts.{known_count, ids, declarations, imported, targets, codes, totals};

use crate::codes::Spelling;
use crate::count::count;
use crate::ids::Chains;
use crate::notes::spread;
use crate::records::read;
use crate::table::NameTable;

// Fills the ids and the codes, and notes what the records say of their names.
#[tactic(auto, using(crate::proofs::Reading::read_all))]
pub fn read_records(sheet: &[u8], names: &[u8], table: &mut NameTable)
    requires { table.old ≡ replicate table_size 0 }
    ensures { Read sheet.now names.now table.new (known_count sheet.now) (known_count sheet.now) }
{
    let mut chains = Chains::new();
    let marks = sheet::name_marks();
    let mut spelling = Spelling::new(&marks, names);
    for i in 0..count(sheet) {
        read(sheet, names, &mut spelling, &mut chains, table, i);
    }
}

// Fills the declarations, the imports and the targets. Here and in `spread` the names text is lent for the contract alone: that an id which is stored is that
// of a record holds of the table of this text, and not of a table for any.
#[tactic(auto, using(crate::proofs::Spreading::spreads))]
pub fn spread_notes(sheet: &[u8], names: &[u8], table: &mut NameTable)
    requires { Read sheet.now names.now table.old (known_count sheet.now) (known_count sheet.now) }
    ensures { take totals_from table.new ≡ (((ids sheet.now names.now ++ declarations sheet.now names.now) ++ imported sheet.now names.now) ++ targets sheet.now names.now) ++ codes sheet.now names.now }
{
    let n = count(sheet);
    if table.is_silent(n) {
        return;
    }
    for i in 0..n {
        spread(sheet, names, table, i);
    }
}

// Fills whether there is a wildcard, and how many declarations there are.
#[tactic(auto, using(crate::proofs::Found::counted_none))]
pub fn fill_totals(sheet: &[u8], table: &mut NameTable)
    ensures { (names : List ℕ) → table.new ≡ take totals_from table.old ++ totals sheet.now names }
{
    // One loop for both, so that each kind is read once. As a `fold` it is not proved: its closure does not know that the sum fits.
    let n = count(sheet);
    let mut wildcard = false;
    let mut found: u16 = 0;
    for j in 0..n {
        let kind = sheet::kind(sheet, j);
        wildcard |= kind == sheet::kinds::WILDCARD;
        found += u16::from(kind == sheet::kinds::DECLARATION);
    }
    table.set_totals(u16::from(wildcard), found);
}
