// The bytes of a record that the sheet has, and the numbers in them.
ghost use Rattle.std.specs.Prelude.{◌≡◌, ◌+◌, ◌/◌, ◌<◌, length};
ghost use Rattle.rules.specs.Record.{number_at, name_length, name_offset, record_bytes, is_renaming};
ghost use Rattle.names.specs.View.{view_at};

use rules::Sheet;
use sheet::{kinds, subs};

// The bytes of record `i`, without a test of where the sheet ends. A function that another crate can name asks nothing of its callers, so that this is no
// function of `sheet`, whose own reading tests it.
#[tactic(auto, using(crate::proofs::RecordBytes::record_read))]
pub fn record(sheet: &[u8], i: usize) -> &[u8; Sheet::RECORD]
    requires { i < length sheet.now / 32 }
    ensures { result.now ≡ record_bytes sheet.now i }
{
    let (records, _) = sheet.as_chunks();
    &records[i]
}

// The value's eight bytes, whatever the kind.
pub fn value(bytes: &[u8; Sheet::RECORD]) -> u64
    ensures { result ≡ number_at 24 8 bytes.now }
{
    u64::from_le_bytes([
        bytes[24], bytes[25], bytes[26], bytes[27], bytes[28], bytes[29], bytes[30], bytes[31],
    ])
}

// Where the name part ends in the names text, whatever the kind.
#[tactic(auto, using(crate::proofs::RecordBytes::name_ends))]
pub fn name_end(bytes: &[u8; Sheet::RECORD]) -> usize
    ensures { result ≡ name_offset bytes.now + name_length bytes.now }
{
    let offset = u32::from_le_bytes([bytes[4], bytes[5], bytes[6], bytes[7]]);
    offset as usize + usize::from(bytes[2])
}

// Whether record `i` is a known declaration that renames a type.
#[tactic(auto, unfolding(names::specs::View::view_at))]
pub fn is_renaming(sheet: &[u8], i: usize) -> bool
    ensures { result ≡ is_renaming (view_at sheet.now i) }
{
    (sheet::kind(sheet, i) == kinds::DECLARATION) && subs::is_renaming(sheet::sub(sheet, i))
}
