// Where the grammar stands, beside the parts that are due.
ghost use Rattle.std.specs.Prelude.{◌≡◌};

// Which body, and where in it.
#[derive(Clone, Copy, PartialEq, Eq)]
pub enum Body {
    Context,
    Message,
    Unbacked,
    Backed,
    Flags,
    Outside,
    Variant,
    Newtype,
}

// Where in a field list. A newtype's inner type is `Typed` or `BitNames` too.
#[derive(Clone, Copy, PartialEq, Eq)]
pub enum Item {
    // Between the items.
    Between,
    // After a field, or after its annotations, where an argument may follow.
    Opened,
    Annotated,
    // In a type, where no bit name may come next, or where one may.
    Typed,
    BitNames,
    // In a condition.
    Conditioned,
}

// The parts that are due stand beside it: one struct of both was proved, and takes 1.4 in 100 more instructions on `exercise`. At 0.46 to 0.51 of the ready
// tree with an aim of 0.5 a run of 0.494 or more, which meets it, then misses it.
//
// The item counts in a body that has fields or a type, which are four of the eight; the others stand between items. A case of each body with its item
// would have each step of a field list and of a type, which goes by the item alone, written out for each of two bodies.
#[derive(Clone, Copy)]
pub struct State {
    pub body: Body,
    pub item: Item,
}
