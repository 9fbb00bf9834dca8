// The names that the records of a list have, in slots: for a long list.
ghost use Rattle.std.specs.Prelude.{◌≡◌, ◌+◌, ◌*◌, ◌%◌, ◌≤◌, ◌<◌, length};
ghost use Rattle.rules.specs.Record.{record_size};
ghost use Rattle.rules.specs.Refusals.{max_records};
ghost use Rattle.names.specs.Known.{numbers_of};
ghost use Rattle.lists.specs.Met.{is_met};
ghost use Rattle.lists.specs.Named.{row_of, HasNames};

use crate::named::NamedRecords;
use crate::whole::kind_within;
use names::ValidationContext;
use rules::Sheet;
use std::marker::Model;

// The slot of a name. The names of a sheet have slots of their own.
fn slot(id: u16) -> usize
    ensures { (result ≡ id % max_records) × (result < max_records) }
{
    usize::from(id) % Sheet::MAX_RECORDS
}

// The names of records of a kind, in slots. A slot has the place behind the last record whose name falls into it, and 0 at first: one comparison with the
// start of a list turns down both a slot that is empty and a name of an earlier list, where an Option would need two, and twice the bytes to clear.
#[derive(Drop)]
struct Slots {
    behind: [u16; Sheet::MAX_RECORDS],
}

impl Slots {
    // Whether one of the records before record `i` has its name, by the slot. All are asked where another name is the last in the slot.
    #[inline(always)]
    fn is_met(&self, records: NamedRecords, i: usize) -> bool
        requires { HasNames records self.now.behind i }
        ensures { result ≡ is_met (row_of records.entry) i }
    {
        let id = records.context.id(i);
        let behind = usize::from(self.behind[slot(id)]);
        if behind <= records.start {
            return false;
        }
        if records.context.id(behind - 1) == id {
            return true;
        }
        records.has_name(i, id)
    }

    // Puts the name of record `i` into its slot, if it is one of the records.
    #[inline(always)]
    fn put(&mut self, records: NamedRecords, i: usize)
        requires before { HasNames records self.old.behind i }
        requires few { i < max_records }
        requires whole { (i + 1) * record_size ≤ length records.context.sheet.now }
        ensures { HasNames records.entry self.new.behind (i + 1) }
    {
        if kind_within(records.context.sheet, i) == records.kind {
            let id = records.context.id(i);
            // a sheet has fewer records than 16 bits count
            self.behind[slot(id)] = (i + 1) as u16;
        }
    }

    // Puts the names of those of the records from record `start` up to record `end` that are of the kind into their slots. Mostly that is one record, the
    // type between two fields, which needs no loop.
    #[inline(always)]
    fn put_between(&mut self, records: NamedRecords, start: usize, end: usize)
        requires before { HasNames records self.old.behind start }
        requires ordered { start ≤ end }
        requires few { end ≤ max_records }
        requires whole { end * record_size ≤ length records.context.sheet.now }
        ensures { HasNames records.entry self.new.behind end }
    {
        if end == start + 1 {
            self.put(records, start);
            return;
        }
        for i in start..end {
            self.put(records, i);
        }
    }
}

// The names of the records of a kind. Those of the records before record `end` are in the slots.
#[derive(Drop)]
pub struct MetNames<'a> {
    records: NamedRecords<'a>,
    end: usize,
    slots: Slots,
}

impl<'a> Model for MetNames<'a> {
    ghost use Rattle.lists.specs.Met.{Row};

    ghost Value = { Row };

    ghost use Rattle.lists.specs.Named.{row_of, HasNames};

    ghost view = { λ names. row_of names.records };

    ghost invariant = { λ names. HasNames names.records names.slots.behind names.end };
}

impl<'a> MetNames<'a> {
    // The records of that kind from record `start` on.
    pub fn new(context: ValidationContext<'a>, kind: u8, start: usize) -> MetNames<'a>
        ensures { result ≡ record { sheet = context.entry.sheet.now; table = numbers_of context.entry; kind = kind; start = start } }
    {
        MetNames {
            records: NamedRecords {
                context,
                kind,
                start,
            },
            end: start,
            slots: Slots {
                behind: [0; Sheet::MAX_RECORDS],
            },
        }
    }

    // The records of that kind from record `start` on in their place.
    pub fn restart(&mut self, context: ValidationContext<'a>, kind: u8, start: usize)
        ensures { self.new ≡ record { sheet = context.entry.sheet.now; table = numbers_of context.entry; kind = kind; start = start } }
    {
        // names in slots that lie behind no record from the start on are none of theirs
        if start < self.end {
            self.slots.behind = [0; Sheet::MAX_RECORDS];
        }
        self.records = NamedRecords {
            context,
            kind,
            start,
        };
        self.end = start;
    }

    // Whether one of them before record `i` has the name of record `i`, which is put into its slot.
    #[inline(always)]
    pub fn is_met(&mut self, i: usize) -> bool
        ensures { (self.new ≡ self.old) × (result ≡ is_met self.old i) }
    {
        let records = self.records;
        // the slots are not for records that come again, nor for those past the last of a sheet
        let count = sheet::records(records.context.sheet);
        if (i < self.end) | (Sheet::MAX_RECORDS <= i) | (count <= i) {
            return records.is_met(i);
        }
        self.slots.put_between(records, self.end, i);
        let met = self.slots.is_met(records, i);
        self.slots.put(records, i);
        self.end = i + 1;
        met
    }
}
