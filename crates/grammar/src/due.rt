// The parts that are due.
ghost use Rattle.std.specs.Prelude.{◌≡◌, [], ◌∷◌};
ghost use Rattle.rules.specs.Kind;
ghost use Rattle.rules.specs.Grammar.{due_at, none_due, part_step};
ghost use Rattle.grammar.specs.Parts.{part_in, part_of};
ghost use Rattle.grammar.specs.Due.{bare, is_first, Taken, part_step_of, room, deepened};

use crate::order::in_order;
use rules::{Refusal, Sheet};
use sheet::kinds;
use std::marker::Model;

// The greatest depth, as an entry has it.
const MAX_DEPTH: u8 = Sheet::MAX_DEPTH as u8;

// So many entries hold all parts that are due: none is ever due deeper than one past the greatest depth, and each is deeper than the number of those
// below it.
const ENTRIES: usize = Sheet::MAX_DEPTH + 2;

#[derive(Clone, Copy)]
pub enum Part {
    TypeExpr,
    Condition,
    Operand,
}

// A part that is due, with its depth.
#[derive(Clone, Copy)]
pub struct Entry {
    pub depth: u8,
    pub part: Part,
}

// The parts that are due: the first `height` entries, the last of them first. It is no `ArrayVec` of the kit, since the library for C stands on no crate
// of the kit but `std` (docs/DECISIONS.md).
#[derive(Drop)]
pub struct Due {
    entries: [Entry; ENTRIES],
    height: usize,
}

impl Model for Due {
    ghost use Rattle.std.specs.Prelude.{List};
    ghost use Rattle.rules.specs.Grammar as Grammar;
    ghost use Rattle.grammar.specs.Parts.{dues, Sound};

    ghost Value = { List Grammar.Due };

    ghost view = { λ d. dues d.entries d.height };

    ghost invariant = { λ d. Sound d.entries d.height };
}

impl Part {
    // Which part the parts of a kind are.
    fn of(kind: u8) -> Part
        ensures { result ≡ part_of kind }
    {
        if kind < kinds::AND {
            return Part::TypeExpr;
        }
        if kind < kinds::CMP {
            return Part::Condition;
        }
        Part::Operand
    }

    // Whether the kind is one of the part.
    fn holds(self, kind: u8) -> bool
        ensures { result ≡ Kind.is_part (part_in self) kind }
    {
        match self {
            Part::TypeExpr => sheet::is_type(kind),
            Part::Condition => sheet::is_condition(kind),
            Part::Operand => kind == kinds::OPERAND,
        }
    }
}

impl Due {
    // Nothing is due.
    #[tactic(auto, unfolding(crate::specs::Parts::dues))]
    pub fn new() -> Due
        ensures { result ≡ [] }
    {
        let none = Entry {
            depth: 0,
            part: Part::TypeExpr,
        };
        Due {
            entries: [none; ENTRIES],
            height: 0,
        }
    }

    // Whether nothing is due.
    #[tactic(auto, using(crate::proofs::Stack::height_none))]
    pub fn is_empty(&self) -> bool
        ensures { result ≡ none_due self.now }
    {
        self.height == 0
    }

    // One part is due, of depth 1.
    pub(crate) fn begin(&mut self, part: Part)
        ensures { self.new ≡ due_at 1 (part_in part) ∷ [] }
    {
        self.entries[0] = Entry { depth: 1, part };
        self.height = 1;
    }

    // The record is the first part that is due: its own parts take its place, one deeper.
    fn take(&mut self, kind: u8, part: Part) -> Result<(), Refusal>
        requires { Taken self.old kind part }
        ensures { part_step_of result self.new ≡ part_step self.old (bare kind 0) }
    {
        let top = self.height - 1;
        let depth = self.entries[top].depth;
        if MAX_DEPTH < depth {
            return Err(Refusal::TooDeep); // row 7
        }
        let deeper = Entry {
            depth: depth + 1,
            part,
        };
        self.entries[top] = deeper;
        self.entries[top + 1] = deeper;
        self.height = top + usize::from(sheet::part_count(kind));
        Ok(())
    }

    // Whether a record of the kind may be the first part that is due.
    #[tactic(auto, using(crate::proofs::PartSteps::first_none, crate::proofs::PartSteps::first_some))]
    fn is_first(&self, kind: u8) -> bool
        ensures { result ≡ is_first self.now kind }
    {
        self.height != 0 && self.entries[self.height - 1].part.holds(kind)
    }

    // The first part that is due: the record, if it is such a part.
    #[tactic(auto, using(crate::proofs::PartSteps::step_other))]
    pub(crate) fn part_step(&mut self, kind: u8) -> Result<(), Refusal>
        ensures { part_step_of result self.new ≡ part_step self.old (bare kind 0) }
    {
        in_order(self.is_first(kind))?;
        self.take(kind, Part::of(kind))
    }

    // How many types of one part may come, each in the one before. None is a true count: no type is due, or the one that is due is too deep.
    pub fn room(&self) -> u8
        ensures { result ≡ room self.now }
    {
        if self.height == 0 {
            return 0;
        }
        let top = self.entries[self.height - 1];
        match top.part {
            Part::TypeExpr => MAX_DEPTH + 1 - top.depth,
            _ => 0,
        }
    }

    // So many such types have come, or as many as there is room for.
    pub fn deepen(&mut self, by: u8)
        ensures { self.new ≡ deepened by self.old }
    {
        let room = self.room();
        if self.height != 0 {
            self.entries[self.height - 1].depth += by.min(room);
        }
    }
}
