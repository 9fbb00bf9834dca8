// What one record adds to the table.
ghost use Rattle.std.specs.Prelude.{◌≡◌, ◌+◌, ◌<◌};
ghost use Rattle.names.specs.NameTable.{code_of};
ghost use Rattle.names.specs.Buckets.{Chained};
ghost use Rattle.names.specs.Notes.{Read};
ghost use Rattle.names.specs.Parts.{known_count};

use crate::asked::is_worded;
use crate::codes::Spelling;
use crate::ids::Chains;
use crate::notes::note;
use crate::own::Named;
use crate::table::NameTable;
use crate::words::{BIT, word_code};
use sheet::kinds;

// The code of the record's name.
#[tactic(auto, using(crate::proofs::WordCodes::codes, crate::proofs::Numbers::again))]
fn next_code(named: &Named, spelling: &mut Spelling) -> u16
    requires { spelling.old.names ≡ named.now.names.now }
    ensures { (result ≡ code_of named.now.kind named.now.name.now) × (spelling.new ≡ spelling.old) }
{
    if is_worded(named.kind) {
        return word_code(named.name);
    }
    if named.kind == kinds::BIT_NAME && spelling.is_valid(named.own, named.name) {
        BIT
    } else {
        0
    }
}

// Stores the id and the code of record `i`, and notes what it says of its name. A record without a fitting name is its own, and has code 0.
//
// One loop alone has what is lent here; a struct of it would hold the table by `&mut`, and its one method would have these clauses with `self.` before
// each name. The names text, which `spelling` has, is lent beside it: read through a `&mut`, it would be loaded anew for each record.
#[tactic(auto, using(crate::proofs::Known::known_bounds))]
pub fn read(
    sheet: &[u8],
    names: &[u8],
    spelling: &mut Spelling,
    chains: &mut Chains,
    table: &mut NameTable,
    i: usize,
)
    requires { (i < known_count sheet.now) × (spelling.old.names ≡ names.now) × Chained sheet.now names.now chains.old.heads chains.old.links i × Read sheet.now names.now table.old i i }
    ensures { (spelling.new ≡ spelling.old) × Chained sheet.now names.now chains.new.heads chains.new.links (i + 1) × Read sheet.now names.now table.new (i + 1) (i + 1) }
{
    let Some(named) = Named::read(sheet, names, i) else {
        table.set_id(i, i);
        return;
    };
    let id = chains.next_id(&named);
    table.set_id(i, id);
    table.set_code(i, next_code(&named, spelling));
    note(&named, table, id);
}
