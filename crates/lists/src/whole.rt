// Whole records of a sheet, which are read without a test of where the sheet ends.
ghost use Rattle.std.specs.Prelude.{◌≡◌, true, ◌+◌, ◌*◌, ◌<◌, ◌≤◌, length, min};
ghost use Rattle.rules.specs.Kind;
ghost use Rattle.rules.specs.Record.{record_size, record_bytes, kind_in, value_in};
ghost use Rattle.rules.specs.Refusals.{max_records};

use names::ValidationContext;
use rules::{RecordRange, Sheet};

// Whole records of a sheet, in a row and among the first 1,024, with what they are checked against. What is read of them needs no test of where the sheet ends:
// the type says so. No function that another crate can name has a `requires`, a rule of the project, so `refusals` and `names` have readings of their own.
#[derive(Clone, Copy)]
pub struct WholeRecords<'a> {
    pub context: ValidationContext<'a>,
    pub range: RecordRange,
    pub ghost ordered: { range.start ≤ range.end },
    pub ghost few: { range.end ≤ max_records },
    pub ghost whole: { range.end * record_size ≤ length context.sheet.now },
}

// The kind of record `i`, which is whole.
pub(crate) fn kind_within(sheet: &[u8], i: usize) -> u8
    requires { (i + 1) * record_size ≤ length sheet.now }
    ensures { result ≡ kind_in (record_bytes sheet.now i) }
{
    sheet[i * Sheet::RECORD]
}

impl<'a> WholeRecords<'a> {
    // The kind of record `i`, which is one before their end.
    pub(crate) fn kind_within(self, i: usize) -> u8
        requires { i < self.range.end }
        ensures { result ≡ kind_in (record_bytes self.entry.context.sheet.now i) }
    {
        kind_within(self.context.sheet, i)
    }

    // The ordinal of record `i`, which is one before their end: a field, a variant or a tombstone.
    #[tactic(auto, using(crate::proofs::WholeBytes::ordinal_read))]
    pub(crate) fn ordinal_within(self, i: usize) -> u64
        requires inside { i < self.range.end }
        requires numbered { Kind.has_ordinal (kind_in (record_bytes self.context.sheet.now i)) ≡ true }
        ensures { result ≡ value_in (record_bytes self.entry.context.sheet.now i) }
    {
        let sheet = self.context.sheet;
        let first = i * Sheet::RECORD + 24;
        u64::from_le_bytes([
            sheet[first],
            sheet[first + 1],
            sheet[first + 2],
            sheet[first + 3],
            sheet[first + 4],
            sheet[first + 5],
            sheet[first + 6],
            sheet[first + 7],
        ])
    }

    // The kind of record `i` of the sheet. Where a loop over the records asks for it, the test is that of the loop.
    #[inline(always)]
    pub fn kind(self, i: usize) -> u8
        ensures { result ≡ kind_in (record_bytes self.entry.context.sheet.now i) }
    {
        if self.range.end <= i {
            return sheet::kind(self.context.sheet, i);
        }
        self.kind_within(i)
    }

    // Those of them from record `start` on, or none.
    pub fn from(self, start: usize) -> WholeRecords<'a>
        ensures range { result.range ≡ record { start = min start self.entry.range.end; end = self.entry.range.end } }
        ensures within { start ≤ self.entry.range.end → result.range ≡ record { start = start; end = self.entry.range.end } }
        ensures context { result.context ≡ self.entry.context }
    {
        self.part(start, self.range.end)
    }

    // Those of them behind record `i`, or none. Where a loop over the records asks for it, the test is that of the loop.
    #[inline(always)]
    pub fn behind(self, i: usize) -> WholeRecords<'a>
        ensures range { result.range ≡ record { start = min (i + 1) self.entry.range.end; end = self.entry.range.end } }
        ensures within { i < self.entry.range.end → result.range ≡ record { start = i + 1; end = self.entry.range.end } }
        ensures context { result.context ≡ self.entry.context }
    {
        if self.range.end <= i {
            return self.from(self.range.end);
        }
        WholeRecords {
            context: self.context,
            range: RecordRange {
                start: i + 1,
                end: self.range.end,
            },
        }
    }

    // Those of them from record `start` up to record `end`, or none.
    #[inline(always)]
    pub fn part(self, start: usize, end: usize) -> WholeRecords<'a>
        ensures range { result.range ≡ record { start = min start (min end self.entry.range.end); end = min end self.entry.range.end } }
        ensures within { start ≤ end → end ≤ self.entry.range.end → result.range ≡ record { start = start; end = end } }
        ensures context { result.context ≡ self.entry.context }
    {
        let end = usize::min(end, self.range.end);
        WholeRecords {
            context: self.context,
            range: RecordRange {
                start: usize::min(start, end),
                end,
            },
        }
    }
}
