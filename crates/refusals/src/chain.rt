// Row 9: a newtype whose chain of named newtypes never ends.
//
// The newtypes are asked in turn, and each chain that ends is shortened in the table, so that all walks together are linear in the declarations (`names::never_ends`).
ghost use Rattle.std.specs.Prelude.{◌≡◌, ◌&&◌, ◌+◌, ◌/◌, ◌≤◌, ◌<◌, length};
ghost use Rattle.rules.specs.Record.{record_size, is_renaming};
ghost use Rattle.rules.specs.Refusals.{max_length, max_records, leads_nowhere};
ghost use Rattle.names.specs.View.{view_at, view_of, context_by};
ghost use Rattle.names.specs.SameEnds.{Lasting};
ghost use Rattle.names.specs.Ends.{Kept};
ghost use Rattle.refusals.specs.Pass.{Ended, verdict_of};
ghost use Rattle.refusals.specs.Turned.{endless_by};

use crate::bytes::is_renaming;
use crate::order::refused_at;
use names::NameTable;
use rules::{Refusal, Refused};

// Whether record `i` of `n` is a newtype whose chain never ends.
#[tactic(auto, using(crate::proofs::ChainWalk::other_ends, crate::proofs::ChainWalk::last_ends, crate::proofs::ChainWalk::newtype_walked, names::proofs::ChainEnds::kept_itself))]
fn is_endless(sheet: &[u8], table: &mut NameTable, i: usize, n: usize) -> bool
    requires { Lasting (context_by table.old sheet.now) × (i < n) × (n ≤ max_records) }
    ensures told { result ≡ (is_renaming (view_at sheet.now i) && leads_nowhere (context_by table.old sheet.now) (view_of sheet.now (i + 1) n)) }
    ensures kept { Kept sheet.now table.old table.new }
{
    is_renaming(sheet, i) && i + 1 < n && names::never_ends(sheet, table, i + 1)
}

// The first newtype whose chain never ends. The newtypes end at `end`.
pub fn endless(sheet: &[u8], table: &mut NameTable, end: usize) -> Result<(), Refused>
    requires { (length sheet.now ≤ max_length) × Ended sheet.now end (length sheet.now / record_size) × Lasting (context_by table.old sheet.now) }
    ensures told { verdict_of result ≡ endless_by table.old sheet.now }
    ensures kept { Kept sheet.now table.old table.new }
{
    let n = sheet::records(sheet);
    for i in 0..end {
        if is_endless(sheet, table, i, n) {
            return Err(refused_at(Refusal::EndlessChain, i));
        }
    }
    Ok(())
}
