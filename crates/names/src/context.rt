// What a declaration is checked against: the sheet, and the table of its names, which is asked by the records that have them.
ghost use Rattle.std.specs.Prelude.{◌≡◌, ◌<◌, not, eqb, IfSome};
ghost use Rattle.rules.specs.Context as Context;
ghost use Rattle.names.specs.View.{view_at, entry_of, id_part, declaration_part, import_part, target_part, code_part, max_place, index_at, at_place, wildcard_of, declarations_of};
ghost use Rattle.names.specs.WordOf.{word_of};
ghost use Rattle.names.specs.Known.{numbers_of, context_in};

use crate::table::NameTable;
use crate::words::{BIT, Word};
use sheet::kinds;

// It goes beside the list of violations, as in the Rust: a struct of both would be lent by `&mut`, and each function that adds to the list would have to
// promise besides that the context in it is still the same one, while the context alone is `Copy` and asks for no promise.
#[derive(Clone, Copy)]
pub struct ValidationContext<'a> {
    pub sheet: &'a [u8],
    pub table: &'a NameTable,
}

// The context is asked what the table alone says of a name as well as what it says together with the sheet (`behind`, `chain_end`), so that callers ask in one
// way.
impl<'a> ValidationContext<'a> {
    // The first record with the same name.
    pub fn id(self, i: usize) -> u16
        ensures { result ≡ entry_of id_part (numbers_of self.entry) i }
    {
        self.table.id(i)
    }

    // The first declaration of the name, if there is one. That an index is below the greatest place is handed on to where a place is made of it.
    pub fn declaration(self, i: usize) -> Option<usize>
        ensures record { result ≡ index_at (entry_of declaration_part (numbers_of self.entry) i) }
        ensures small { IfSome result (λ d. d < max_place) }
    {
        self.table.declaration(i)
    }

    // Whether the name is imported.
    pub fn is_imported(self, i: usize) -> bool
        ensures { result ≡ not (eqb (entry_of import_part (numbers_of self.entry) i) 0) }
    {
        self.table.is_imported(i)
    }

    // The type that the name is declared with, if there is one.
    pub fn target(self, i: usize) -> Option<usize>
        ensures record { result ≡ index_at (entry_of target_part (numbers_of self.entry) i) }
        ensures small { IfSome result (λ t. t < max_place) }
    {
        self.table.target(i)
    }

    // The name's code.
    pub fn code(self, i: usize) -> u16
        ensures { result ≡ entry_of code_part (numbers_of self.entry) i }
    {
        self.table.code(i)
    }

    // The word that the name is, if it is one.
    pub fn word(self, i: usize) -> Option<Word>
        ensures { result ≡ word_of (entry_of code_part (numbers_of self.entry) i) }
    {
        Word::with_code(self.code(i))
    }

    // Whether the name is one that a bit may have.
    #[tactic(auto, unfolding(crate::specs::View::context_by))]
    pub fn is_valid_field_name(self, i: usize) -> bool
        ensures { result ≡ (context_in self.entry).is_valid_field_name i }
    {
        self.code(i) == BIT
    }

    // Whether the sheet has a wildcard.
    pub fn has_wildcard(self) -> bool
        ensures { result ≡ not (eqb (wildcard_of (numbers_of self.entry)) 0) }
    {
        self.table.has_wildcard()
    }

    // How many declarations the sheet has.
    pub fn declarations(self) -> u16
        ensures { result ≡ declarations_of (numbers_of self.entry) }
    {
        self.table.declarations()
    }

    // The type behind record `i`, a type that names a newtype, if there is one.
    #[tactic(auto, using(crate::proofs::Behind::behind_rules))]
    pub fn behind(self, i: usize) -> Option<usize>
        ensures record { at_place self.entry.sheet.now result ≡ Context.behind (context_in self.entry) (view_at self.entry.sheet.now i) }
        ensures small { IfSome result (λ t. t < max_place) }
    {
        if sheet::kind(self.sheet, i) != kinds::NAMED {
            return None;
        }
        self.declaration(i)?;
        self.target(i)
    }

    // The type at the end of the chain of newtypes from type `i` on, or the one after as many steps as there are declarations.
    #[tactic(auto, using(crate::proofs::Chain::chain_rules))]
    pub fn chain_end(self, i: usize) -> usize
        ensures end { view_at self.entry.sheet.now result ≡ Context.chain_end (context_in self.entry) (declarations_of (numbers_of self.entry)) (view_at self.entry.sheet.now i) }
        ensures small { i < max_place → result < max_place }
    {
        let mut at = i;
        for _ in 0..self.declarations() {
            let Some(next) = self.behind(at) else {
                return at;
            };
            at = next;
        }
        at
    }
}
