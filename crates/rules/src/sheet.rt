// A sheet and its names text, by their lengths.
ghost use Rattle.std.specs.Prelude.{◌≡◌, ◌%◌, ◌||◌, not, eqb, ltb};
ghost use Rattle.rules.specs.Record.{record_size};
ghost use Rattle.rules.specs.Refusals.{max_length, max_names_length};

#[derive(Clone, Copy)]
pub struct Sheet {
    pub len: usize,
    pub names_len: usize,
}

impl Sheet {
    // The bytes of a record.
    pub const RECORD: usize = 32;
    // Row 1: the most bytes of a sheet.
    pub const MAX_LEN: usize = 32768;
    // So many records has the longest.
    pub const MAX_RECORDS: usize = Sheet::MAX_LEN / Sheet::RECORD;
    // Row 2: the most bytes of a names text.
    pub const MAX_NAMES_LEN: usize = 16384;
    // Row 5: the greatest ordinal.
    pub const MAX_ORDINAL: u64 = 4294967295;
    // Row 7: the greatest depth of a type or a condition.
    pub const MAX_DEPTH: usize = 64;
    // Rules 2, 31 and 35: the greatest ordinal of a field or a variant.
    pub const MAX_FIELD_ORDINAL: u64 = 65535;
    // Rule 33: the greatest ordinal that a backing U8 holds,
    pub const MAX_U8_BACKING: u64 = 255;
    // U16,
    pub const MAX_U16_BACKING: u64 = 65535;
    // U32
    pub const MAX_U32_BACKING: u64 = 4294967295;
    // and U64.
    pub const MAX_U64_BACKING: u64 = 18446744073709551615;
    // Rule 34: the greatest position of a bit.
    pub const MAX_BIT: u64 = 63;
    // Rule 19: the greatest limit.
    pub const MAX_LIMIT: u64 = 16777216;

    // A sheet of `len` bytes with a names text of `names_len` bytes.
    pub fn new(len: usize, names_len: usize) -> Sheet
        ensures { (result.len ≡ len) × (result.names_len ≡ names_len) }
    {
        Sheet { len, names_len }
    }

    // Row 1: whether the sheet is no whole records, or longer than is accepted.
    pub fn is_wrong_length(self) -> bool
        ensures { result ≡ (not (eqb (self.len % record_size) 0) || ltb max_length self.len) }
    {
        (self.len % Sheet::RECORD != 0) | (Sheet::MAX_LEN < self.len)
    }

    // Row 2: whether the names text is longer than is accepted.
    pub fn is_long_names(self) -> bool
        ensures { result ≡ ltb max_names_length self.names_len }
    {
        Sheet::MAX_NAMES_LEN < self.names_len
    }
}
