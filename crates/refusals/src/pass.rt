// The pass over the records: the first fault by rows 3 to 8.
//
// The sheet, the names text and the table stand side by side, as `accept` is asked with them: below `record_step` no function takes more than two of
// the three, so that a struct of them would be taken apart there.
ghost use Rattle.std.specs.Prelude.{◌≡◌, ◌&&◌, ◌+◌, ◌/◌, ◌<◌, ◌≤◌, length, eqb};
ghost use Rattle.rules.specs.Record.{record_size, record_bytes, decode, kind_in, sub_in, records};
ghost use Rattle.rules.specs.Grammar as Grammar;
ghost use Rattle.rules.specs.Refusals.{max_length, max_records};
ghost use Rattle.grammar.specs.Due.{bare};
ghost use Rattle.grammar.specs.States.{state_of, step_of};
ghost use Rattle.refusals.specs.Pass.{is_second, or_second, record_step_by, first_fault_by, Ended, passed_of, EndSound};

use crate::bytes::{is_renaming, record};
use crate::order::{refused_at, told_at};
use crate::own::own_fault;
use crate::runs::run_end;
use grammar::{Due, State};
use names::NameTable;
use rules::{Refusal, Refused, Sheet};
use sheet::kinds;

// Whether the first declaration of record `i`'s name is another one.
#[tactic(auto, using(crate::proofs::Passes::second_read))]
fn is_second(table: &NameTable, i: usize) -> bool
    requires { i < max_records }
    ensures { result ≡ is_second table.now i }
{
    table.declaration(i) != Some(i)
}

// Rows 6 to 8 at record `i`. Only a declaration and a head are asked for their sub, and both have one.
#[tactic(auto, using(crate::proofs::Passes::grammar_fault, crate::proofs::Passes::grammar_second, crate::proofs::Passes::grammar_first))]
fn grammar_step(
    bytes: &[u8; Sheet::RECORD],
    table: &NameTable,
    due: &mut Due,
    state: &mut State,
    i: usize,
) -> Result<(), Refusal>
    requires { i < max_records }
    ensures { step_of result state.new due.new ≡ or_second (eqb (kind_in bytes.now) 1 && is_second table.now i) (Grammar.step (state_of state.old due.old) (bare (kind_in bytes.now) (sub_in bytes.now))) }
{
    let kind = bytes[0];
    state.step(due, kind, bytes[1])?;
    if (kind == kinds::DECLARATION) && is_second(table, i) {
        return Err(Refusal::SecondDeclaration); // row 8
    }
    Ok(())
}

// Rows 3 to 8 at record `i`, the lowest number first.
#[tactic(auto, using(crate::proofs::Passes::own_first))]
fn record_step(
    sheet: &[u8],
    names: &[u8],
    table: &NameTable,
    due: &mut Due,
    state: &mut State,
    i: usize,
) -> Result<(), Refusal>
    requires { (i < max_records) × (i < length sheet.now / record_size) }
    ensures { step_of result state.new due.new ≡ record_step_by (is_second table.now i) (state_of state.old due.old) (decode names.now (record_bytes sheet.now i)) }
{
    let bytes = record(sheet, i);
    own_fault(bytes, names)?;
    grammar_step(bytes, table, due, state, i)
}

// Where the declarations end that rename a type, up to record `i`.
#[tactic(auto, using(crate::proofs::Passes::ends_here, crate::proofs::Passes::ends_after))]
fn newtypes_end(sheet: &[u8], end: usize, i: usize) -> usize
    requires { Ended sheet.now end i × (i < max_records) }
    ensures { Ended sheet.now result (i + 1) }
{
    if is_renaming(sheet, i) {
        return i + 1;
    }
    end
}

// The first fault by rows 3 to 8, and row 6 for an early end; if there is none, where the newtypes end.
//
// It is not compiled into its caller, whose other values would take the registers of a step.
#[inline(never)]
pub fn first_fault(sheet: &[u8], names: &[u8], table: &NameTable) -> Result<usize, Refused>
    requires { length sheet.now ≤ max_length }
    ensures { (passed_of result ≡ first_fault_by (is_second table.now) Grammar.start 0 (records sheet.now names.now)) × EndSound result sheet.now }
{
    let mut due = Due::new();
    let n = sheet::records(sheet);
    let mut state = State::start();
    let mut i = 0;
    let mut end = 0;
    while i < n {
        let step = record_step(sheet, names, table, &mut due, &mut state, i);
        told_at(step, i)?;
        end = newtypes_end(sheet, end, i);
        // A run is as long as its records make it, so that no `for` can step here.
        i = run_end(sheet, names, &mut due, state, i + 1);
    }
    if state.may_end(&due) {
        return Ok(end);
    }
    Err(refused_at(Refusal::OutOfOrder, n)) // row 6
}
