// What is told of the items of a list by the records alone.
ghost use Rattle.std.specs.Prelude.{◌≡◌, ◌≤◌, ◌<◌, true, false, ℕ, MatchBool};
ghost use Rattle.rules.specs.Record.{value_in, record_bytes};
ghost use Rattle.lists.specs.Earlier.{has_value};
ghost use Rattle.lists.specs.Items.{IsItem, IsOther, tombstoned_in, met_before};
ghost use Rattle.lists.specs.Kept.{items_of, sheet_of};

use crate::list::ItemList;

// Whether a tombstone of the list has an ordinal, and whether an item before has it.
#[derive(Clone, Copy)]
pub struct Meeting {
    pub tombstoned: bool,
    pub met: bool,
}

impl Meeting {
    // Neither.
    pub const NONE: Meeting = Meeting {
        tombstoned: false,
        met: false,
    };
}

// An item that was met in its list: its record, the ordinal of that, and what was met of it.
#[derive(Clone, Copy)]
pub struct MetItem<'a> {
    pub sheet: &'a [u8],
    pub index: usize,
    pub ordinal: u64,
    pub meeting: Meeting,
    pub ghost read: { ordinal ≡ value_in (record_bytes sheet.now index) },
}

// Whether record `i` is of that kind and has that number.
#[tactic(auto, unfolding(crate::specs::Earlier::has_value))]
fn has_value(sheet: &[u8], kind: u8, i: usize, ordinal: u64) -> bool
    ensures { result ≡ has_value kind sheet.now ordinal i }
{
    (sheet::kind(sheet, i) == kind) & (ordinal == sheet::value(sheet, i))
}

// Whether a record of that kind, among records `start` up to `end`, has that number.
fn is_among(sheet: &[u8], kind: u8, start: usize, end: usize, ordinal: u64) -> bool
    ensures { MatchBool result
        ((i : ℕ) × (start ≤ i) × (i < end) × (has_value kind sheet.now ordinal i ≡ true))
        ((i : ℕ) → start ≤ i → i < end → has_value kind sheet.now ordinal i ≡ false) }
{
    (start..end).any(|i| has_value(sheet, kind, i, ordinal))
}

impl<'a> ItemList<'a> {
    // Whether record `i` is an item of the list.
    #[inline(always)]
    #[tactic(auto, using(crate::proofs::ReadKinds::item_rules))]
    pub fn is_item(&self, i: usize) -> bool
        ensures item { result ≡ true → IsItem (items_of self.now) i }
        ensures other { result ≡ false → IsOther (items_of self.now) i }
    {
        if self.records.range.end <= i {
            return false;
        }
        self.records.kind_within(i) == self.item
    }

    // The ordinal of record `i`, an item of the list.
    pub fn ordinal(&self, i: usize) -> u64
        requires { IsItem (items_of self.now) i }
        ensures { result ≡ value_in (record_bytes (sheet_of self.now) i) }
    {
        self.records.ordinal_within(i)
    }

    // Tells of that ordinal at record `i`: asks the records.
    #[inline(never)]
    pub fn tell(&self, i: usize, ordinal: u64) -> Meeting
        ensures tombstoned { result.tombstoned ≡ tombstoned_in (items_of self.now) ordinal }
        ensures met { result.met ≡ met_before (items_of self.now) i ordinal }
    {
        let sheet = self.records.context.sheet;
        let range = self.records.range;
        Meeting {
            tombstoned: is_among(sheet, self.tombstone, range.start, range.end, ordinal),
            met: is_among(sheet, self.item, range.start, i, ordinal),
        }
    }
}
