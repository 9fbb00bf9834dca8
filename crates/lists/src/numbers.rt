// The numbers that are kept of a list.
ghost use Rattle.std.specs.Prelude.{◌≡◌, ◌+◌, ◌-◌, ◌%◌, ◌≤◌, ◌<◌, length, true, false, slice_set};
ghost use Rattle.rules.specs.Words.{member};
ghost use Rattle.rules.specs.Record.{value_in, record_bytes};
ghost use Rattle.rules.specs.Refusals.{max_records};
ghost use Rattle.lists.specs.Seen.{latest};
ghost use Rattle.lists.specs.Items.{IsItem, tombstoned_in, met_before};
ghost use Rattle.lists.specs.Kept.{items_of, sheet_of, start_of, end_of, KnownBefore};

use crate::items::Meeting;
use crate::list::ItemList;
use rules::Sheet;

// How many marks there are: a prime, so that numbers in equal steps have marks of their own.
pub const MARKS: usize = 1021;

// The numbers of a list that are kept: the ordinals of its tombstones, and then those of its items so far. Marks lie beside them: where a number has no mark,
// it is not among them. An ordinal over 32 bits, which row 5 does not let through, is not kept: whether it was met is asked of the records. The numbers are an
// array and their count by value, as document 01 has them: nothing here takes memory from a heap, and the library for C stands on no crate of the kit but
// `std`, which has no vector of a fixed room.
#[derive(Drop)]
pub struct Numbers {
    pub ordinals: [u32; Sheet::MAX_RECORDS],
    pub marks: [bool; MARKS],
    pub tombstones: usize,
    pub len: usize,
}

// Where the mark of a number lies. A `usize` is not made `From` a number of 32 bits.
fn mark(number: u32) -> usize
    ensures { (result ≡ number % 1021) × (result < 1021) }
{
    number as usize % MARKS
}

// Whether the number is among those. Each turn asks one of the first and one of the last of them: two windows, which overlap where they must for the turns
// to be a multiple of 8, as many as the compiled code takes at once. The library's `contains` takes an eighth longer where all ordinals share a mark, and
// `marks` is at its aim (0.24 of the Rust's whole way on one machine, 0.28 on another; the aim is 0.25). Of a `fold` over both windows by `zip` the result is not proved: the search finds no way
// from the pairs that `zip` gives to the numbers at each index.
fn contains(numbers: &[u32], number: u32) -> bool
    ensures { result ≡ member number (latest numbers.now 0 (length numbers.now)) }
{
    let count = numbers.len();
    if count < 8 {
        return numbers.contains(&number);
    }
    let window = count.div_ceil(16) * 8;
    let last = count - window;
    let mut found = false;
    for i in 0..window {
        found = (number == numbers[i]) | (number == numbers[last + i]) | found;
    }
    found
}

impl Numbers {
    // Tells of the number, whatever its mark says: asks those that are kept. Few ordinals have a mark, and so it stays out of the lists' loops.
    #[inline(never)]
    fn tell(&self, number: u32) -> Meeting
        requires ordered { self.now.tombstones ≤ self.now.len }
        requires room { self.now.len ≤ max_records }
        ensures tombstoned { result.tombstoned ≡ member number (latest self.now.ordinals 0 self.now.tombstones) }
        ensures met { result.met ≡ member number (latest self.now.ordinals self.now.tombstones (self.now.len - self.now.tombstones)) }
    {
        Meeting {
            tombstoned: contains(&self.ordinals[..self.tombstones], number),
            met: contains(&self.ordinals[self.tombstones..self.len], number),
        }
    }

    // Keeps the number behind those that are kept, and sets its mark.
    fn keep(&mut self, number: u32)
        requires { self.old.len < max_records }
        ensures ordinals { self.new.ordinals ≡ slice_set self.old.ordinals self.old.len number }
        ensures marks { self.new.marks ≡ slice_set self.old.marks (number % 1021) true }
        ensures tombstones { self.new.tombstones ≡ self.old.tombstones }
        ensures len { self.new.len ≡ self.old.len + 1 }
    {
        self.ordinals[self.len] = number;
        self.marks[mark(number)] = true;
        self.len += 1;
    }

    // Keeps the ordinals of the list's tombstones in their place, that of the last first.
    pub fn collect(&mut self, list: &ItemList)
        ensures { KnownBefore list.now self.new (start_of list.now) }
    {
        let records = list.records;
        let tombstone = list.tombstone;
        self.len = 0;
        for i in (records.range.start..records.range.end).rev() {
            if records.kind_within(i) != tombstone {
                continue;
            }
            let Ok(number) = u32::try_from(sheet::value(records.context.sheet, i)) else {
                continue;
            };
            self.keep(number);
        }
        self.tombstones = self.len;
    }

    // Meets that ordinal of record `i`, an item of the list: says whether it was met, and keeps it. Most have no mark.
    #[inline(always)]
    pub fn meet(&mut self, list: &ItemList, i: usize, ordinal: u64) -> Meeting
        requires item { IsItem (items_of list.now) i }
        requires read { ordinal ≡ value_in (record_bytes (sheet_of list.now) i) }
        requires known { KnownBefore list.now self.old i }
        ensures tombstoned { result.tombstoned ≡ tombstoned_in (items_of list.now) ordinal }
        ensures met { result.met ≡ met_before (items_of list.now) i ordinal }
        ensures known { KnownBefore list.now self.new (i + 1) }
    {
        if Sheet::MAX_ORDINAL < ordinal {
            return list.tell(i, ordinal);
        }
        // by `u32::try_from` an answer would be made and then asked, five instructions more for each item
        let number = ordinal as u32;
        if self.marks[mark(number)] {
            let told = self.tell(number);
            self.keep(number);
            return told;
        }
        self.keep(number);
        Meeting::NONE
    }

    // Passes record `i`, an item of the list, whose ordinal is kept. The lists' loops meet each item, and so none is passed.
    #[inline(never)]
    fn pass(&mut self, list: &ItemList, i: usize)
        requires item { IsItem (items_of list.now) i }
        requires known { KnownBefore list.now self.old i }
        ensures { KnownBefore list.now self.new (i + 1) }
    {
        let ordinal = list.ordinal(i);
        self.meet(list, i, ordinal);
    }

    // Passes the records of the list from record `start` up to record `end`.
    fn pass_to(&mut self, list: &ItemList, start: usize, end: usize)
        requires ordered { start ≤ end }
        requires inside { end ≤ end_of list.now }
        requires known { KnownBefore list.now self.old start }
        ensures { KnownBefore list.now self.new end }
    {
        let records = list.records;
        let item = list.item;
        // mostly one record is passed, the type between two fields, which needs no loop
        if (end == start + 1) && (records.kind_within(start) != item) {
            return;
        }
        for i in start..end {
            if records.kind_within(i) != item {
                continue;
            }
            self.pass(list, i);
        }
    }

    // Whether what is kept is what stands before record `i` of the list, once the records from record `next` on are passed. It is not where record `i` comes again.
    #[inline(always)]
    pub fn reach(&mut self, list: &ItemList, next: usize, i: usize) -> bool
        requires inside { i < end_of list.now }
        requires known { next ≤ end_of list.now → KnownBefore list.now self.old next }
        ensures reached { result ≡ true → KnownBefore list.now self.new i }
        ensures again { result ≡ false → self.new ≡ self.old }
    {
        if i == next {
            return true;
        }
        if i < next {
            return false;
        }
        self.pass_to(list, next, i);
        true
    }
}
