// The table of names: what the rules ask of the name of each record.
ghost use Rattle.std.specs.Prelude.{◌≡◌, ◌+◌, ◌<◌, ◌≤◌, true, not, eqb, [], ◌∷◌, ◌++◌, ℕ, length, get_or, set, take, replicate, ltb, IfSome};
ghost use Rattle.rules.specs.Words.{number_if};
ghost use Rattle.rules.specs.Refusals.{max_records};
ghost use Rattle.names.specs.View.{entry_of, id_part, declaration_part, import_part, target_part, code_part, ids_from, declarations_from, imports_from, codes_from, totals_from, table_size, max_place, index_at, wildcard_of, declarations_of};
ghost use Rattle.names.specs.Notes.{set_first, Silent};
ghost use Rattle.names.specs.SameEnds.{with_target};

use rules::Sheet;
use std::marker::Model;

// Five numbers for each record, and two for the sheet. A place is a record's index and one more; 0 is none. Any numbers are a table: it says what it is asked, and
// is right once it is filled, which this crate alone does. An import and a wildcard are numbers too, 1 where there is one: they stand in the definition's list of
// numbers, and `entry` and `is_zero` read all parts alike; of a `bool` each law of the view would have to make a number. The parts stand side by side and not in
// one array of structs: `is_silent` looks through two of them, and the definition's list has one after the other.
#[derive(Drop)]
pub struct NameTable {
    ids: [u16; Sheet::MAX_RECORDS],
    // the places of the first declarations
    declarations: [u16; Sheet::MAX_RECORDS],
    // 1 at an imported name
    imported: [u16; Sheet::MAX_RECORDS],
    // the places of the types that names are declared with
    targets: [u16; Sheet::MAX_RECORDS],
    codes: [u16; Sheet::MAX_RECORDS],
    // 1 if there is a wildcard
    wildcards: u16,
    // how many declarations there are
    declared: u16,
}

// Clauses see all numbers, part by part.
impl Model for NameTable {
    ghost use Rattle.std.specs.Prelude.{List, ℕ, [], ◌∷◌, ◌++◌};

    ghost Value = { List ℕ };

    ghost view = { λ t. t.ids ++ t.declarations ++ t.imported ++ t.targets ++ t.codes ++ (t.wildcards ∷ t.declared ∷ []) };
}

// The number of a part for record `i`; 0 past the last record that the table has.
fn entry(part: &[u16; Sheet::MAX_RECORDS], i: usize) -> u16
    ensures { result ≡ number_if (ltb i max_records) (get_or part.now i 0) }
{
    part.get(i).copied().unwrap_or(0)
}

// The record at a place; none at 0.
fn record_at(place: u16) -> Option<usize>
    ensures record { result ≡ index_at place }
    ensures small { IfSome result (λ i. i < max_place) }
{
    place.checked_sub(1).map(usize::from)
}

// Whether each number is 0. No number ends the loop early, so that many are looked at at once; `all` looks at one after another.
fn is_zero(numbers: &[u16]) -> bool
    ensures { result ≡ true → (k : ℕ) → k < length numbers.now → get_or numbers.now k 0 ≡ 0 }
{
    let mut all = true;
    for number in numbers {
        all &= *number == 0;
    }
    all
}

impl NameTable {
    // A table of zeros.
    pub fn new() -> Self
        ensures { result ≡ replicate table_size 0 }
    {
        NameTable {
            ids: [0; Sheet::MAX_RECORDS],
            declarations: [0; Sheet::MAX_RECORDS],
            imported: [0; Sheet::MAX_RECORDS],
            targets: [0; Sheet::MAX_RECORDS],
            codes: [0; Sheet::MAX_RECORDS],
            wildcards: 0,
            declared: 0,
        }
    }

    // The first record with the same name.
    #[tactic(auto, unfolding(crate::specs::View::entry_of))]
    pub fn id(&self, i: usize) -> u16
        ensures { result ≡ entry_of id_part self.now i }
    {
        entry(&self.ids, i)
    }

    // The first declaration of the name, if there is one.
    #[tactic(auto, unfolding(crate::specs::View::entry_of))]
    pub fn declaration(&self, i: usize) -> Option<usize>
        ensures record { result ≡ index_at (entry_of declaration_part self.now i) }
        ensures small { IfSome result (λ d. d < max_place) }
    {
        record_at(entry(&self.declarations, i))
    }

    // Whether the name is imported.
    #[tactic(auto, unfolding(crate::specs::View::entry_of))]
    pub fn is_imported(&self, i: usize) -> bool
        ensures { result ≡ not (eqb (entry_of import_part self.now i) 0) }
    {
        entry(&self.imported, i) != 0
    }

    // The type that the name is declared with, if there is one.
    #[tactic(auto, unfolding(crate::specs::View::entry_of))]
    pub fn target(&self, i: usize) -> Option<usize>
        ensures record { result ≡ index_at (entry_of target_part self.now i) }
        ensures small { IfSome result (λ t. t < max_place) }
    {
        record_at(entry(&self.targets, i))
    }

    // The name's code.
    #[tactic(auto, unfolding(crate::specs::View::entry_of))]
    pub fn code(&self, i: usize) -> u16
        ensures { result ≡ entry_of code_part self.now i }
    {
        entry(&self.codes, i)
    }

    // Whether the sheet has a wildcard.
    pub fn has_wildcard(&self) -> bool
        ensures { result ≡ not (eqb (wildcard_of self.now) 0) }
    {
        self.wildcards != 0
    }

    // How many declarations the sheet has.
    pub fn declarations(&self) -> u16
        ensures { result ≡ declarations_of self.now }
    {
        self.declared
    }

    // Has the table lead from the name of record `i` to the type at that place, which is any number, as the numbers of a table are.
    #[tactic(auto, using(crate::proofs::Joined::stored_fourth), unfolding(crate::specs::SameEnds::with_target))]
    pub(crate) fn set_target(&mut self, i: usize, place: u16)
        ensures { self.new ≡ with_target self.old i place }
    {
        if i < Sheet::MAX_RECORDS {
            self.targets[i] = place;
        }
    }

    // Stores the id of record `i`.
    #[tactic(auto, using(crate::proofs::Joined::stored_first))]
    pub(crate) fn set_id(&mut self, i: usize, id: usize)
        requires { (i < max_records) × (id < max_records) }
        ensures { self.new ≡ set self.old (ids_from + i) id }
    {
        // a sheet has fewer records than 16 bits count
        self.ids[i] = id as u16;
    }

    // Stores the code of record `i`.
    pub(crate) fn set_code(&mut self, i: usize, code: u16)
        requires { i < max_records }
        ensures { self.new ≡ set self.old (codes_from + i) code }
    {
        self.codes[i] = code;
    }

    // Notes that record `i` declares the name with that id, unless one before it does.
    #[tactic(auto, using(crate::proofs::Joined::stored_there), unfolding(crate::specs::Notes::set_first))]
    pub(crate) fn note_declaration(&mut self, i: usize, id: usize)
        requires { (i < max_records) × (id < max_records) }
        ensures { self.new ≡ set_first self.old (declarations_from + id) (i + 1) }
    {
        if self.declarations[id] == 0 {
            // a sheet has fewer records than 16 bits count
            self.declarations[id] = (i + 1) as u16;
        }
    }

    // Notes that the name with that id is imported.
    #[tactic(auto, using(crate::proofs::Joined::stored_third))]
    pub(crate) fn note_import(&mut self, id: usize)
        requires { id < max_records }
        ensures { self.new ≡ set self.old (imports_from + id) 1 }
    {
        self.imported[id] = 1;
    }

    // The id that is stored for record `i`.
    pub(crate) fn stored_id(&self, i: usize) -> usize
        requires { i < max_records }
        ensures { result ≡ get_or self.now (ids_from + i) 0 }
    {
        usize::from(self.ids[i])
    }

    // Stores for record `i` what is noted at that id, and says where the declaration is.
    #[tactic(auto, using(crate::proofs::Joined::copied))]
    pub(crate) fn copy_notes(&mut self, i: usize, id: usize) -> usize
        requires { (i < max_records) × (id < max_records) }
        ensures place { result ≡ get_or self.old (declarations_from + id) 0 }
        ensures stored { self.new ≡ set (set self.old (declarations_from + i) (get_or self.old (declarations_from + id) 0)) (imports_from + i) (get_or self.old (imports_from + id) 0) }
    {
        let place = self.declarations[id];
        self.declarations[i] = place;
        self.imported[i] = self.imported[id];
        usize::from(place)
    }

    // Whether nothing is noted at the first `n` ids.
    #[tactic(auto, using(crate::proofs::Joined::silent_all))]
    pub(crate) fn is_silent(&self, n: usize) -> bool
        requires { n ≤ max_records }
        ensures { result ≡ true → Silent self.now n }
    {
        is_zero(&self.declarations[..n]) && is_zero(&self.imported[..n])
    }

    // Stores whether there is a wildcard, and how many declarations there are.
    #[tactic(auto, using(crate::proofs::Joined::front))]
    pub(crate) fn set_totals(&mut self, wildcards: u16, declared: u16)
        ensures { self.new ≡ take totals_from self.old ++ (wildcards ∷ declared ∷ []) }
    {
        self.wildcards = wildcards;
        self.declared = declared;
    }
}
