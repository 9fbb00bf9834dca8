// The fields of record `i` of a sheet.
ghost use Rattle.std.specs.Prelude.{◌≡◌, ◌/◌, length};
ghost use Rattle.rules.specs.Record.{record_size, record_bytes, kind_in, sub_in, span_in, ordinal_span_in, value_in};

use crate::bytes::{byte_at, long_at, word_at};
use crate::kinds;
use rules::{Sheet, Span};

// How many whole records the sheet has.
pub fn records(sheet: &[u8]) -> usize
    ensures { result ≡ length sheet.now / record_size }
{
    sheet.len() / Sheet::RECORD
}

// The kind.
pub fn kind(sheet: &[u8], i: usize) -> u8
    ensures { result ≡ kind_in (record_bytes sheet.now i) }
{
    byte_at(sheet, i, 0)
}

// The sub; 0 for a kind without subs.
#[tactic(auto, unfolding(rules::specs::Record::sub_in))]
pub fn sub(sheet: &[u8], i: usize) -> u8
    ensures { result ≡ sub_in (record_bytes sheet.now i) }
{
    if kinds::sub_count(kind(sheet, i)) == 0 {
        0
    } else {
        byte_at(sheet, i, 1)
    }
}

// The span.
pub fn span(sheet: &[u8], i: usize) -> Span
    ensures { result ≡ span_in (record_bytes sheet.now i) }
{
    Span::new(word_at(sheet, i, 8), word_at(sheet, i, 12))
}

// The ordinal's span; empty at 0 for a kind without one.
#[tactic(auto, unfolding(rules::specs::Record::ordinal_span_in))]
pub fn ordinal_span(sheet: &[u8], i: usize) -> Span
    ensures { result ≡ ordinal_span_in (record_bytes sheet.now i) }
{
    if kinds::has_ordinal_span(kind(sheet, i)) {
        Span::new(word_at(sheet, i, 16), word_at(sheet, i, 20))
    } else {
        Span::new(0, 0)
    }
}

// The value: an ordinal, a size or a literal whole; of a sub-byte type 9 bits; 0 for the other kinds.
#[tactic(auto, unfolding(rules::specs::Record::value_in, rules::specs::Words::any_of))]
pub fn value(sheet: &[u8], i: usize) -> u64
    ensures { result ≡ value_in (record_bytes sheet.now i) }
{
    let kind = kind(sheet, i);
    if kinds::has_ordinal(kind) {
        return long_at(sheet, i, 24);
    }
    if kinds::has_literal(kind) {
        return long_at(sheet, i, 24);
    }
    if kind == kinds::SUB_BYTE {
        return long_at(sheet, i, 24) % 512;
    }
    0
}
