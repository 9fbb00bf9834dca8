// Where the name of record `i` lies in the names text. The name itself is read by `names`, for records that have one.
ghost use Rattle.std.specs.Prelude.{◌≡◌, ◌<◌};
ghost use Rattle.rules.specs.Record.{record_bytes, is_named_in, name_length, name_offset, fits_in};

use crate::bytes::{byte_at, word_at};
use crate::kinds::{OPERAND, is_named};
use crate::record::{kind, sub};

// Whether the record has a name. The sub is read of an operand alone, as no other kind's decides.
pub fn has_name(sheet: &[u8], i: usize) -> bool
    ensures { result ≡ is_named_in (record_bytes sheet.now i) }
{
    let kind = kind(sheet, i);
    if kind == OPERAND {
        is_named(kind, sub(sheet, i))
    } else {
        is_named(kind, 0)
    }
}

// The name's offset in the names text.
pub fn name_offset(sheet: &[u8], i: usize) -> usize
    ensures { (result ≡ name_offset (record_bytes sheet.now i)) × (result < 4294967296) }
{
    word_at(sheet, i, 4) as usize
}

// The name's length.
pub fn name_len(sheet: &[u8], i: usize) -> usize
    ensures { (result ≡ name_length (record_bytes sheet.now i)) × (result < 256) }
{
    usize::from(byte_at(sheet, i, 2))
}

// Whether the name part ends within the names text (row 4); a record without a name fits.
#[tactic(auto, unfolding(rules::specs::Record::fits_in))]
pub fn fits(sheet: &[u8], names: &[u8], i: usize) -> bool
    ensures { result ≡ fits_in names.now (record_bytes sheet.now i) }
{
    !has_name(sheet, i) || name_offset(sheet, i) + name_len(sheet, i) <= names.len()
}
