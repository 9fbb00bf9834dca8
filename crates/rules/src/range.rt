// Some records of a sheet in a row, by their indices. The library's `Range` is an iterator and no `Copy`, and a range goes to several functions one after
// another. It carries no sheet: the parts of a field are several ranges of one sheet, and with a sheet in each, contracts would have to say that it is the same.
ghost use Rattle.std.specs.Prelude.{◌≡◌, leb};
ghost use Rattle.rules.specs.Range.{first_of};

// The records from `start` up to `end`; none where `end` is not behind `start`.
#[derive(Clone, Copy, PartialEq, Eq)]
pub struct RecordRange {
    pub start: usize,
    pub end: usize,
}

impl RecordRange {
    // Whether there are none.
    pub fn is_empty(self) -> bool
        ensures { result ≡ leb self.end self.start }
    {
        self.end <= self.start
    }

    // The first, if there is one.
    pub fn first(self) -> Option<usize>
        ensures { result ≡ first_of self }
    {
        if self.is_empty() {
            None
        } else {
            Some(self.start)
        }
    }

    // Those from `start` on.
    pub fn starting_at(self, start: usize) -> RecordRange
        ensures { result ≡ record { start = start; end = self.end } }
    {
        RecordRange {
            start,
            end: self.end,
        }
    }
}
