// Whether a bit may have a name. The bytes of a long name are told by blocks of the names text, each of which is looked at once, when a name needs it, so
// that names which share their bytes cost no more than those bytes.
ghost use Rattle.std.specs.Prelude.{◌≡◌, true, ◌+◌, ◌-◌, ◌*◌, ◌≤◌, ◌<◌, length, take, drop, min, max};
ghost use Rattle.rules.specs.Record.{record_bytes, name_in};
ghost use Rattle.rules.specs.Context.{valid_field_name};
ghost use Rattle.sheet.specs.Mark.{HasMarks, continue_by};
ghost use Rattle.names.specs.NameTable.{is_named};
ghost use Rattle.names.specs.Parts.{record_of};

use rules::Sheet;
use std::marker::Model;

// How many bytes a block has, and how many blocks the longest names text.
const BLOCK: usize = 64;

const BLOCKS: usize = Sheet::MAX_NAMES_LEN / BLOCK;

// A names text, the marks that tell its bytes, and whether all bytes of a block may go on in a name, for each block that was looked at.
#[derive(Drop)]
pub struct Spelling<'a> {
    marks: &'a [u8; 256],
    names: &'a [u8],
    blocks: [Option<bool>; BLOCKS],
}

// Clauses see the text and the marks: what is known of a block is no more than they say.
impl<'a> Model for Spelling<'a> {
    ghost use Rattle.names.specs.Code.{MarkedText, Judged};
    ghost use Rattle.sheet.specs.Mark.{HasMarks};

    ghost Value = { MarkedText };

    ghost view = { λ s. record { marks = s.marks.now; names = s.names.now } };

    ghost invariant = { λ s. HasMarks s.marks.now × Judged s.marks.now s.names.now s.blocks };
}

impl<'a> Spelling<'a> {
    // The names text, of which no block was looked at.
    #[tactic(auto, using(crate::proofs::Blocks::judged_none))]
    pub fn new(marks: &'a [u8; 256], names: &'a [u8]) -> Self
        requires { HasMarks marks.now }
        ensures { result.names ≡ names.now }
    {
        Spelling {
            marks,
            names,
            blocks: [None; BLOCKS],
        }
    }

    // Whether all bytes of block `k` may go on in a name, which is kept. It stands apart, so that a walk over good blocks stays short.
    #[inline(never)]
    fn look(&mut self, k: usize) -> bool
        requires { (k * 64 < length self.old.names) × (k < 256) }
        ensures told { result ≡ true → continue_by self.old.marks (take 64 (drop (k * 64) self.old.names)) ≡ true }
        ensures same { self.new ≡ self.old }
    {
        let start = k * BLOCK;
        let end = self.names.len().min(start + BLOCK);
        let good = sheet::continue_by(self.marks, &self.names[start..end]);
        self.blocks[k] = Some(good);
        good
    }

    // Whether all bytes of block `k` may go on in a name, as far as that is known: of the first 256 blocks.
    fn is_good(&mut self, k: usize) -> bool
        requires { k * 64 < length self.old.names }
        ensures told { result ≡ true → continue_by self.old.marks (take 64 (drop (k * 64) self.old.names)) ≡ true }
        ensures same { self.new ≡ self.old }
    {
        match self.blocks.get(k) {
            None => false,
            Some(Some(good)) => *good,
            Some(None) => self.look(k),
        }
    }

    // Whether each byte from `start` to `end` that is in block `k` may go on in a name. It stands apart for the same reason.
    #[inline(never)]
    fn piece_continues(&self, k: usize, start: usize, end: usize) -> bool
        requires { (k * 64 < end) × (start < k * 64 + 64) × (start ≤ end) × (end ≤ length self.now.names) }
        ensures { result ≡ continue_by self.now.marks (take (k * 64 + min (end - k * 64) 64 - max start (k * 64)) (drop (max start (k * 64)) self.now.names)) }
    {
        let at = k * BLOCK;
        let from = start.max(at);
        let to = at + (end - at).min(BLOCK);
        sheet::continue_by(self.marks, &self.names[from..to])
    }

    // Whether each byte from `start` to `end` may go on in a name.
    #[tactic(auto, using(crate::proofs::Blocks::walks))]
    fn part_continues(&mut self, start: usize, end: usize) -> bool
        requires { (start ≤ end) × (end ≤ length self.old.names) }
        ensures told { result ≡ continue_by self.old.marks (take (end - start) (drop start self.old.names)) }
        ensures same { self.new ≡ self.old }
    {
        // As `all` it is not proved: its closure would look at blocks through `self`, and nothing is known afterwards of what a closure changed.
        for k in start / BLOCK..end.div_ceil(BLOCK) {
            if self.is_good(k) {
                continue;
            }
            if !self.piece_continues(k, start, end) {
                return false;
            }
        }
        true
    }

    // Whether all bytes of the first record's name may go on. It stands apart, so that a short name needs nothing of what a long one does.
    #[inline(never)]
    #[tactic(auto, using(crate::proofs::Numbers::named_by, crate::proofs::Numbers::name_by))]
    fn name_continues(&mut self, sheet: &[u8]) -> bool
        requires { is_named (record_of sheet.now self.old.names 0) ≡ true }
        ensures told { result ≡ continue_by self.old.marks (name_in self.old.names (record_bytes sheet.now 0)) }
        ensures same { self.new ≡ self.old }
    {
        let start = sheet::name_offset(sheet, 0);
        let end = start + sheet::name_len(sheet, 0);
        self.part_continues(start, end)
    }

    // Whether a bit may have the name, which is that of the first record.
    #[tactic(auto, using(crate::proofs::Blocks::spelled))]
    pub fn is_valid(&mut self, sheet: &[u8], name: &[u8]) -> bool
        requires { (is_named (record_of sheet.now self.old.names 0) ≡ true) × (name.now ≡ name_in self.old.names (record_bytes sheet.now 0)) }
        ensures told { result ≡ valid_field_name name.now }
        ensures same { self.new ≡ self.old }
    {
        let [first, ..] = name else {
            return false;
        };
        if !sheet::starts_by(self.marks, *first) {
            return false;
        }
        if name.len() <= BLOCK {
            return sheet::continue_by(self.marks, name);
        }
        self.name_continues(sheet)
    }
}
