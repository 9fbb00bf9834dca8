// Runs of records that are passed without a step each: imported names and bit names, which leave the state as it is, and types of one part, each of
// which has the part that is due one deeper. A run begins at a record of the sheet or at its end, which `run_end` asks and hands on to the three below it.
ghost use Rattle.std.specs.Prelude.{◌≡◌, ◌&&◌, true, ℕ, ◌/◌, ◌<◌, ◌≤◌, length, eqb};
ghost use Rattle.rules.specs.Record.{kind_in, clean_in};
ghost use Rattle.grammar.specs.declared.state.Body.TheVariants.{Context, Message};
ghost use Rattle.grammar.specs.declared.state.Item.TheVariants.{Typed};
ghost use Rattle.refusals.specs.Runs.{is_nest, Plain, Ran, at};

use crate::bytes::{name_end, record};
use grammar::{Body, Due, Item, State};
use rules::Sheet;
use sheet::kinds;

// Whether a record is of the kind, one that has a name, and rows 3 to 5 let it pass.
#[tactic(auto, using(crate::proofs::PlainRuns::plain_named))]
fn is_plain_name(bytes: &[u8; Sheet::RECORD], names: &[u8], kind: u8) -> bool
    ensures { result ≡ true → Plain (λ k. eqb k kind) names.now bytes.now }
{
    (bytes[3] == 0) & (bytes[0] == kind) & (name_end(bytes) <= names.len())
}

// Whether a record is a type of one part, which is a type, and rows 3 to 5 let it pass: none of these has a name.
fn is_plain_nest(bytes: &[u8; Sheet::RECORD]) -> bool
    ensures { result ≡ (clean_in bytes.now && is_nest (kind_in bytes.now)) }
{
    (bytes[3] == 0) & matches!(bytes[0], kinds::OPTIONAL..=kinds::SET)
}

// The first record from `i` up to `n` that is not plain.
fn plain_end<F: Fn(usize) -> bool>(i: usize, n: usize, is_plain: F) -> usize
    requires ordered { i ≤ n }
    requires callable { (j : ℕ) → i ≤ j → j < n → F.pre is_plain j }
    ensures inside { (i ≤ result) × (result ≤ n) }
    ensures plain { (j : ℕ) → i ≤ j → j < result → F.post is_plain j true }
{
    (i..n)
        .find(
            |j|
                requires { F.pre is_plain j.now }
            { !is_plain(*j) },
        )
        .unwrap_or(n)
}

// Passes the types of one part from record `i` on in the type of a message's field, as far as none is too deep.
#[tactic(auto, using(crate::proofs::PlainRuns::ran_none))]
fn nests_end(sheet: &[u8], names: &[u8], due: &mut Due, i: usize) -> usize
    requires { i ≤ length sheet.now / 32 }
    ensures { Ran sheet.now names.now (at Message Typed) due.old due.new i result }
{
    let room = due.room();
    if room == 0 {
        return i;
    }
    let limit = sheet::records(sheet).min(i + usize::from(room));
    let end = plain_end(i, limit, |j| is_plain_nest(record(sheet, j)));
    // not more than `room`
    due.deepen((end - i) as u8);
    end
}

// Passes the records from record `i` on that no step of a message is needed for.
#[tactic(auto, using(crate::proofs::PlainRuns::ran_none))]
fn message_end(sheet: &[u8], names: &[u8], due: &mut Due, item: Item, i: usize) -> usize
    requires { i ≤ length sheet.now / 32 }
    ensures { Ran sheet.now names.now (at Message item) due.old due.new i result }
{
    match item {
        Item::Typed => nests_end(sheet, names, due, i),
        Item::BitNames => plain_end(i, sheet::records(sheet), |j| {
            is_plain_name(record(sheet, j), names, kinds::BIT_NAME)
        }),
        _ => i,
    }
}

// Passes the imported names from record `i` on where one may come.
#[tactic(auto, using(crate::proofs::PlainRuns::ran_none))]
fn context_end(sheet: &[u8], names: &[u8], due: &Due, item: Item, i: usize) -> usize
    requires { i ≤ length sheet.now / 32 }
    ensures { Ran sheet.now names.now (at Context item) due.now due.now i result }
{
    match item {
        Item::Between if due.is_empty() => plain_end(i, sheet::records(sheet), |j| {
            is_plain_name(record(sheet, j), names, kinds::IMPORTED_NAME)
        }),
        _ => i,
    }
}

// Passes the records from record `i` on that no step is needed for.
#[tactic(auto, using(crate::proofs::PlainRuns::ran_none, crate::proofs::PlainRuns::ran_at))]
pub fn run_end(sheet: &[u8], names: &[u8], due: &mut Due, s: State, i: usize) -> usize
    requires { i ≤ length sheet.now / 32 }
    ensures { Ran sheet.now names.now s due.old due.new i result }
{
    match s.body {
        Body::Context => context_end(sheet, names, due, s.item, i),
        Body::Message => message_end(sheet, names, due, s.item, i),
        _ => i,
    }
}
