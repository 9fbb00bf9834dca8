// The ends of chains of named newtypes.
//
// A chain is walked to its end. If it ends, it is walked once more, and the table leads from each type on its way to the end at once. Where row 9 asks for the
// chain of each newtype in turn, each newtype's inner type is so passed twice at most before it leads to its end, all chains that end take together at most six
// calls of `behind` for each newtype, and the first that never ends takes one call more than there are declarations. That is linear in the declarations, and so
// are the keys that are judged by the table afterwards: none of them is more than two steps from its end. No function here calls itself.
//
// The table is lent by `&mut`, so that a context of it and the sheet is made where one is asked for. What lasts of the table each function hands to its caller: a
// type of the table and the sheet would hold the table by `&mut`, and each function would have these clauses all the same.
ghost use Rattle.std.specs.Prelude.{◌≡◌, ◌<◌};
ghost use Rattle.rules.specs.Context as Context;
ghost use Rattle.rules.specs.Refusals.{max_records};
ghost use Rattle.names.specs.View.{view_at, context_by};
ghost use Rattle.names.specs.SameEnds.{Lasting};
ghost use Rattle.names.specs.Ends.{EndsAt, Kept, beside_targets};

use crate::context::ValidationContext;
use crate::table::NameTable;
use rules::Sheet;

// Has the table lead to the end from the type at record `t` and from those behind it, up to the first that leads there already.
#[tactic(auto, using(crate::proofs::ChainEnds::kept_itself))]
fn shorten(sheet: &[u8], table: &mut NameTable, t: usize, end: usize)
    requires { end < max_records }
    ensures kept { Lasting (context_by table.old sheet.now) → EndsAt table.old sheet.now t end → Kept sheet.now table.old table.new }
    ensures beside { beside_targets table.new ≡ beside_targets table.old }
{
    let mut at = t;
    for _ in 0..table.declarations() {
        let context = ValidationContext { sheet, table };
        let Some(next) = context.behind(at) else {
            return;
        };
        if next == end {
            return;
        }
        // a sheet has fewer records than 16 bits count
        table.set_target(at, (end + 1) as u16);
        at = next;
    }
}

// Whether the chain from the type at record `t` on never ends; if it ends, the table leads to its end at once from the types on its way. That all chains keep
// their ends is promised of a table in which a chain that goes on after as many steps as there are declarations goes on for ever.
#[tactic(auto, using(crate::proofs::ChainEnds::end_found, crate::proofs::ChainEnds::end_told, crate::proofs::ChainEnds::kept_itself))]
pub fn never_ends(sheet: &[u8], table: &mut NameTable, t: usize) -> bool
    ensures told { result ≡ Context.never_ends (context_by table.old sheet.now) (view_at sheet.now t) }
    ensures kept { Lasting (context_by table.old sheet.now) → Kept sheet.now table.old table.new }
    ensures beside { beside_targets table.new ≡ beside_targets table.old }
{
    let context = ValidationContext { sheet, table };
    let end = context.chain_end(t);
    if context.behind(end).is_some() {
        return true;
    }
    // past its records the table leads nowhere
    if end < Sheet::MAX_RECORDS {
        shorten(sheet, table, t, end);
    }
    false
}
