// Numbers in bytes, little-endian. Past the end of the bytes everything reads as 0.
ghost use Rattle.std.specs.Prelude.{◌≡◌, ◌+◌, ◌*◌, ◌≤◌, get_or};
ghost use Rattle.rules.specs.Record.{number_at, record_bytes};

use rules::Sheet;

// The bytes of record `i`; fewer, or none, past the end. By cases: by a saturating start and a slice `collisions` takes 42 in 100 more instructions, and `exercise`
// 2 in 100, which is at its aim (0.51 to 0.54 of the Rust's ready tree in one hour on one machine, 0.46 on another; the aim is 0.5).
#[tactic(auto, using(crate::proofs::Part::whole_record, crate::proofs::Part::last_part, crate::proofs::Part::no_part))]
pub fn record(sheet: &[u8], i: usize) -> &[u8]
    ensures { result.now ≡ record_bytes sheet.now i }
{
    let whole = sheet.len() / Sheet::RECORD;
    if i < whole {
        let at = i * Sheet::RECORD;
        let end = at + Sheet::RECORD;
        return &sheet[at..end];
    }
    if i == whole {
        let at = i * Sheet::RECORD;
        return &sheet[at..];
    }
    &sheet[..0]
}

// The byte at `at`. By a test, as `word` and `long`: by `get`, `first_chunk` and `from_le_bytes`, with `matches!` in the tests of kinds, `exercise` takes 3 in 100
// more instructions, and is at its aim.
pub fn byte(b: &[u8], at: usize) -> u8
    ensures { result ≡ get_or b.now at 0 }
{
    if at < b.len() { b[at] } else { 0 }
}

// The number in the four bytes from `at` on.
pub fn word(b: &[u8], at: usize) -> u32
    requires { at ≤ 28 }
    ensures { result ≡ number_at at 4 b.now }
{
    if at + 4 <= b.len() {
        u32::from_le_bytes([b[at], b[at + 1], b[at + 2], b[at + 3]])
    } else {
        u32::from_le_bytes([
            byte(b, at),
            byte(b, at + 1),
            byte(b, at + 2),
            byte(b, at + 3),
        ])
    }
}

// The number in the eight bytes from `at` on.
pub fn long(b: &[u8], at: usize) -> u64
    requires { at ≤ 24 }
    ensures { result ≡ number_at at 8 b.now }
{
    word(b, at) as u64 + 4294967296 * (word(b, at + 4) as u64)
}

// The byte at `at` of record `i`.
pub fn byte_at(sheet: &[u8], i: usize, at: usize) -> u8
    ensures { result ≡ get_or (record_bytes sheet.now i) at 0 }
{
    byte(record(sheet, i), at)
}

// The number in the four bytes from `at` on of record `i`.
pub fn word_at(sheet: &[u8], i: usize, at: usize) -> u32
    requires { at ≤ 28 }
    ensures { result ≡ number_at at 4 (record_bytes sheet.now i) }
{
    word(record(sheet, i), at)
}

// The number in the eight bytes from `at` on of record `i`.
pub fn long_at(sheet: &[u8], i: usize, at: usize) -> u64
    requires { at ≤ 24 }
    ensures { result ≡ number_at at 8 (record_bytes sheet.now i) }
{
    long(record(sheet, i), at)
}
