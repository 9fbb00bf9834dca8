// The whole table.
ghost use Rattle.std.specs.Prelude.{◌≡◌};
ghost use Rattle.names.specs.NameTable.{name_table};

use crate::parts;
use crate::table::NameTable;

// Fills the table for the first 1024 records of the sheet.
pub fn fill(sheet: &[u8], names: &[u8], table: &mut NameTable)
    ensures { table.new ≡ name_table sheet.now names.now }
{
    *table = NameTable::new();
    parts::read_records(sheet, names, table);
    parts::spread_notes(sheet, names, table);
    parts::fill_totals(sheet, table);
}
