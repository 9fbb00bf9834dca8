// Where the name of a record is met first: the id.
ghost use Rattle.std.specs.Prelude.{◌≡◌, true, List, ℕ, ◌+◌, ◌≤◌, ◌<◌, MatchOption};
ghost use Rattle.rules.specs.Refusals.{max_records};
ghost use Rattle.names.specs.NameTable.{is_keyed};
ghost use Rattle.names.specs.Buckets.{bucket_of, Chained};
ghost use Rattle.names.specs.NamedRecord.{named_record, id_of, ChainedBefore};

use crate::asked::is_compared;
use crate::compare::same_bytes;
use crate::hash::bucket;
use crate::own::{Named, name_at};
use rules::Sheet;

// The records that are the first with their name, in a chain for each bucket: the place of the last of each bucket, and of the one before
// each record. A place is 0 where there is none, as in the table and in `Chained`, whose lists hold numbers: of Options each law would have to make the number
// first, and an `Option<u16>` takes four bytes, twice as many to clear in each call. What the chains hold is a clause and no invariant: it names the sheet, its
// names text and how many of its records are read.
#[derive(Drop)]
pub struct Chains {
    heads: [u16; Sheet::MAX_RECORDS],
    links: [u16; Sheet::MAX_RECORDS],
}

impl Chains {
    // Chains of no record.
    pub fn new() -> Self
        ensures { (sheet names : List ℕ) → Chained sheet names result.heads result.links 0 }
    {
        Chains {
            heads: [0; Sheet::MAX_RECORDS],
            links: [0; Sheet::MAX_RECORDS],
        }
    }

    // The id of a record whose name is compared, if the chain of its bucket, which has all first records before it, has a record with
    // the name.
    #[tactic(auto, using(crate::proofs::Leads::walks))]
    fn find(&self, named: &Named, bucket: usize) -> Option<usize>
        requires { (is_keyed (named_record named.now) ≡ true) × (bucket ≡ bucket_of named.now.name.now) × (bucket < max_records) × ChainedBefore named.now self.now.heads self.now.links }
        ensures { MatchOption result (id_of named.now ≡ named.now.index) (λ id. (id ≡ id_of named.now) × (id < named.now.index)) }
    {
        // A walk along a chain. As `successors` and `find` it is not proved: its closure would have to say that each place is a record's, and the chain finite.
        let mut place = usize::from(self.heads[bucket]);
        while place != 0 {
            let first = place - 1;
            if same_bytes(name_at(named.sheet, named.names, first), named.name) {
                return Some(first);
            }
            place = usize::from(self.links[first]);
        }
        None
    }

    // The id of the record. A record that is the first with its name is put at the head of its bucket's chain; a record whose name is not
    // compared is its own.
    #[tactic(auto, using(crate::proofs::Known::known_bounds))]
    pub fn next_id(&mut self, named: &Named) -> usize
        requires { ChainedBefore named.now self.old.heads self.old.links }
        ensures { (result ≡ id_of named.now) × (result ≤ named.now.index) × Chained named.now.sheet.now named.now.names.now self.new.heads self.new.links (named.now.index + 1) }
    {
        let index = named.index;
        if !is_compared(named.kind) {
            return index;
        }
        let bucket = bucket(named.name);
        if let Some(id) = self.find(named, bucket) {
            return id;
        }
        self.links[index] = self.heads[bucket];
        // a sheet has fewer records than 16 bits count
        self.heads[bucket] = (index + 1) as u16;
        index
    }
}
