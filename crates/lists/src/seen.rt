// The ordinals already met in a list.
ghost use Rattle.std.specs.Prelude.{◌≡◌, ◌+◌, MatchOption};
ghost use Rattle.rules.specs.Kind;
ghost use Rattle.rules.specs.Record.{value_in, record_bytes};
ghost use Rattle.lists.specs.Items.{listed, IsItem, IsOther, tombstoned_in, met_before};
ghost use Rattle.lists.specs.MetAt.{MetAt};
ghost use Rattle.lists.specs.Kept.{items_of};

use crate::items::{Meeting, MetItem};
use crate::list::ItemList;
use crate::numbers::{MARKS, Numbers};
use crate::whole::WholeRecords;
use rules::Sheet;
use std::marker::Model;

// The ordinals met in a list. Those of the items before record `next` are kept, and those of all tombstones; past the end of the list it says that none are
// kept yet, and then the records are asked.
#[derive(Drop)]
pub struct Seen<'a> {
    list: ItemList<'a>,
    next: usize,
    numbers: Numbers,
}

impl<'a> Model for Seen<'a> {
    ghost use Rattle.lists.specs.Items.{Items};

    ghost Value = { Items };

    ghost use Rattle.std.specs.Prelude.{◌≤◌};
    ghost use Rattle.lists.specs.Kept.{items_of, end_of, KnownBefore};

    ghost view = { λ seen. items_of seen.list };

    ghost invariant = { λ seen. seen.next ≤ end_of seen.list → KnownBefore seen.list seen.numbers seen.next };
}

impl<'a> Seen<'a> {
    // None yet of that list.
    fn new(list: ItemList<'a>) -> Seen<'a>
        ensures { result ≡ items_of list.entry }
    {
        Seen {
            list,
            next: usize::MAX,
            numbers: Numbers {
                ordinals: [0; Sheet::MAX_RECORDS],
                marks: [false; MARKS],
                tombstones: 0,
                len: 0,
            },
        }
    }

    // None yet of the fields of a field list.
    pub fn fields(records: WholeRecords<'a>) -> Seen<'a>
        ensures { result ≡ listed records.entry.context.sheet.now records.entry.range Kind.Field Kind.FieldTombstone }
    {
        Seen::new(ItemList::fields(records))
    }

    // None yet of the variants of an enum or a union.
    pub fn variants(records: WholeRecords<'a>) -> Seen<'a>
        ensures { result ≡ listed records.entry.context.sheet.now records.entry.range Kind.Variant Kind.Tombstone }
    {
        Seen::new(ItemList::variants(records))
    }

    // Keeps the ordinals of the list's tombstones, and goes on from its first record. It fills them in place: what a function makes and returns is copied,
    // 5 KB here.
    pub fn collect(&mut self)
        ensures { self.new ≡ self.old }
    {
        self.numbers.collect(&self.list);
        self.next = self.list.records.range.start;
    }

    // Meets that ordinal of record `i`, an item of the list: says whether it was met, and keeps it.
    #[inline(always)]
    fn meet_ordinal(&mut self, i: usize, ordinal: u64) -> Meeting
        requires item { IsItem self.old i }
        requires read { ordinal ≡ value_in (record_bytes self.old.sheet i) }
        ensures list { self.new ≡ self.old }
        ensures tombstoned { result.tombstoned ≡ tombstoned_in self.old ordinal }
        ensures met { result.met ≡ met_before self.old i ordinal }
    {
        // what is kept says nothing of a record that comes again
        if !self.numbers.reach(&self.list, self.next, i) {
            return self.list.tell(i, ordinal);
        }
        let meeting = self.numbers.meet(&self.list, i, ordinal);
        self.next = i + 1;
        meeting
    }

    // Meets record `i`, if it is an item of the list.
    #[inline(always)]
    pub fn meet(&mut self, i: usize) -> Option<MetItem<'a>>
        ensures list { self.new ≡ self.old }
        ensures met { MatchOption result (IsOther self.old i) (λ item. IsItem self.old i × MetAt self.old i item) }
    {
        if !self.list.is_item(i) {
            return None;
        }
        let ordinal = self.list.ordinal(i);
        Some(MetItem {
            sheet: self.list.records.context.sheet,
            index: i,
            ordinal,
            meeting: self.meet_ordinal(i, ordinal),
        })
    }
}
