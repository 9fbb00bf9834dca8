// The records of a kind, by their names.
ghost use Rattle.std.specs.Prelude.{◌≡◌};
ghost use Rattle.lists.specs.Met.{is_met};
ghost use Rattle.lists.specs.Named.{names_at, has_name, row_of};

use names::ValidationContext;

// The records of a kind from record `start` on.
#[derive(Clone, Copy)]
pub struct NamedRecords<'a> {
    pub context: ValidationContext<'a>,
    pub kind: u8,
    pub start: usize,
}

impl<'a> NamedRecords<'a> {
    // Whether record `j` is of that kind and has that name.
    #[tactic(auto, unfolding(names::specs::View::view_at, crate::specs::Named::names_at))]
    fn names_at(self, j: usize, id: u16) -> bool
        ensures { result ≡ names_at self.entry id j }
    {
        (sheet::kind(self.context.sheet, j) == self.kind) & (id == self.context.id(j))
    }

    // Whether one of them before record `i` has that name, by all of them.
    pub fn has_name(self, i: usize, id: u16) -> bool
        ensures { result ≡ has_name self.entry id i }
    {
        (self.start..i).any(|j| self.names_at(j, id))
    }

    // Whether one of them before record `i` has the name of record `i`, by all of them.
    pub fn is_met(self, i: usize) -> bool
        ensures { result ≡ is_met (row_of self.entry) i }
    {
        self.has_name(i, self.context.id(i))
    }
}
