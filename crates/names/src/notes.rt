// What is noted at an id while the records are read, and spread to all records with that id after. A place is an index and one more; 0 is none.
ghost use Rattle.std.specs.Prelude.{◌≡◌, ◌+◌, ◌<◌};
ghost use Rattle.rules.specs.Refusals.{max_records};
ghost use Rattle.names.specs.NamedRecord.{id_of};
ghost use Rattle.names.specs.Notes.{set_first, Read, Spread};
ghost use Rattle.names.specs.Parts.{known_count};

use crate::own::Named;
use crate::table::NameTable;
use crate::values::target;
use sheet::kinds;

// Notes what the record says of its name, which has that id.
#[tactic(auto, using(crate::proofs::Noting::notes))]
pub fn note(named: &Named, table: &mut NameTable, id: usize)
    requires { (id < max_records) × (id ≡ id_of named.now) × Read named.now.sheet.now named.now.names.now table.old (named.now.index + 1) named.now.index }
    ensures { Read named.now.sheet.now named.now.names.now table.new (named.now.index + 1) (named.now.index + 1) }
{
    match named.kind {
        kinds::DECLARATION => table.note_declaration(named.index, id),
        kinds::IMPORTED_NAME => table.note_import(id),
        _ => {}
    }
}

// Stores for record `i` what is noted at its id, which is its own index or that of a record before it.
#[tactic(auto, using(crate::proofs::Spreading::spreads))]
pub fn spread(sheet: &[u8], names: &[u8], table: &mut NameTable, i: usize)
    requires { (i < known_count sheet.now) × Spread sheet.now names.now table.old i }
    ensures { Spread sheet.now names.now table.new (i + 1) }
{
    let id = table.stored_id(i);
    let place = table.copy_notes(i, id);
    if place == 0 {
        return;
    }
    table.set_target(i, target(sheet, place));
}
