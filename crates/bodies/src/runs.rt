// Where a run of records ends.
ghost use Rattle.std.specs.Prelude.{◌≡◌, ℕ, Bool, true, not, nat_eq, ◌||◌, ◌+◌, ◌*◌, ◌<◌, ◌≤◌, length};
ghost use Rattle.rules.specs.Words.{within};
ghost use Rattle.rules.specs.Kind;
ghost use Rattle.rules.specs.Record.{is, record_bytes, kind_in};
ghost use Rattle.rules.specs.Bodies.{in_type};
ghost use Rattle.bodies.specs.Runs.{RunTo, AllIn};

use lists::WholeRecords;
use rules::Sheet;
use sheet::kinds;

// Whether the kind is one of a record before the head.
pub fn is_before_head(kind: u8) -> bool
    ensures { result ≡ not (nat_eq kind Kind.Head) }
{
    kind != kinds::HEAD
}

// Whether the kind is one of a field's annotations.
pub fn is_annotation(kind: u8) -> bool
    ensures { result ≡ within Kind.Annotation Kind.Argument kind }
{
    matches!(kind, kinds::ANNOTATION..=kinds::ARGUMENT)
}

// Whether the kind is one of a field's type: that of a type, or of a bit name among them.
fn is_type_part(kind: u8) -> bool
    ensures { result ≡ (nat_eq kind Kind.BitName || Kind.is_type kind) }
{
    (kind == kinds::BIT_NAME) | sheet::is_type(kind)
}

// Whether the kind is one of a field's parts: no item of a field list starts with it.
pub fn is_field_part(kind: u8) -> bool
    ensures { result ≡ not (within Kind.Field Kind.Invariant kind) }
{
    !sheet::is_field_item(kind)
}

// Whether the kind is one of the parts of a variant: no item of a body starts with it.
pub fn is_variant_part(kind: u8) -> bool
    ensures { result ≡ not (within Kind.Variant Kind.Tombstone kind) }
{
    !sheet::is_variant_item(kind)
}

// The first of the records whose kind is not of the run, or their end.
pub fn run_end<F: Fn(u8) -> bool>(records: WholeRecords, is_in: F) -> usize
    requires { F.IsAlwaysCallable is_in }
    ensures inside { (records.entry.range.start ≤ result) × (result ≤ records.entry.range.end) }
    ensures run { (p : ℕ → Bool) → ((kind : ℕ) (r : Bool) → F.post is_in kind r → r ≡ p kind) → RunTo (λ t. p t.kind) records.entry.context.sheet.now records.entry.range.start records.entry.range.end result }
{
    // by `find` `exercise` takes 1.3 in 100 more (33,673 instructions and 33,249), and at 0.46 to 0.51 of the Rust's ready tree with an aim of 0.5 a run of
    // 0.494 or more, which meets it, then misses it
    for i in records.range.start..records.range.end {
        if !is_in(records.kind(i)) {
            return i;
        }
    }
    records.range.end
}

// The kind of record `i`, which is one before their end: no test is left where several are read at once.
fn kind_within(records: WholeRecords, i: usize) -> u8
    requires { i < records.range.end }
    ensures { result ≡ kind_in (record_bytes records.entry.context.sheet.now i) }
{
    records.context.sheet[i * Sheet::RECORD]
}

// Whether the four records from `i` on are optionals.
fn are_optionals(records: WholeRecords, i: usize) -> bool
    requires { i + 4 ≤ records.range.end }
    ensures { result ≡ true → AllIn (is Kind.Optional) records.entry.context.sheet.now i (i + 4) }
{
    (0..4).all(|j| kind_within(records, i + j) == kinds::OPTIONAL)
}

// How many fours of the records, from the first on, are optionals.
fn optional_fours(records: WholeRecords) -> usize
    ensures { (records.entry.range.start + 4 * result ≤ records.entry.range.end) × AllIn (is Kind.Optional) records.entry.context.sheet.now records.entry.range.start (records.entry.range.start + 4 * result) }
{
    let start = records.range.start;
    let fours = (records.range.end - start) / 4;
    (0..fours)
        .find(|four| !are_optionals(records, start + 4 * *four))
        .unwrap_or(fours)
}

// The first of the records that is no optional, or their end. Fours are passed first, faster than one by one.
pub fn optionals_end(records: WholeRecords) -> usize
    ensures { RunTo (is Kind.Optional) records.entry.context.sheet.now records.entry.range.start records.entry.range.end result }
{
    let others = records.from(records.range.start + 4 * optional_fours(records));
    run_end(others, |kind| kind == kinds::OPTIONAL)
}

// The first of the records that is not of a field's type, or their end: types are, and bit names among them.
pub fn type_end(records: WholeRecords) -> usize
    ensures { RunTo in_type records.entry.context.sheet.now records.entry.range.start records.entry.range.end result }
{
    run_end(records, is_type_part)
}
