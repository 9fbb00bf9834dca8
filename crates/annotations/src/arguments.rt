// Annotations and their arguments among the records of a field.
ghost use Rattle.std.specs.Prelude.{◌≡◌, ℕ, suc, ◌≤◌, ◌<◌, List, true, false, MatchOption};
ghost use Rattle.rules.specs.Kind;
ghost use Rattle.rules.specs.Record.{is};
ghost use Rattle.names.specs.View.{view_at, view_of};
ghost use Rattle.annotations.specs.AnnotationAt.{annotation_at};

use rules::RecordRange;
use sheet::kinds;

// Whether record `i` is an annotation.
#[tactic(auto, unfolding(names::specs::View::view_at))]
pub fn is_annotation(sheet: &[u8], i: usize) -> bool
    ensures { result ≡ is Kind.Annotation (view_at sheet.now i) }
{
    sheet::kind(sheet, i) == kinds::ANNOTATION
}

// The records after the first.
#[tactic(auto, using(crate::proofs::Views::after_first))]
pub fn rest(records: RecordRange) -> RecordRange
    ensures view { (sheet : List ℕ) → view_of sheet result.start result.end ≡ view_of sheet (suc records.start) records.end }
    ensures end { result.end ≡ records.end }
{
    records.starting_at(records.start.saturating_add(1))
}

// The first annotation, if there is one.
fn first_annotation(sheet: &[u8], records: RecordRange) -> Option<usize>
    ensures { MatchOption result
        ((k : ℕ) → records.start ≤ k → k < records.end → is Kind.Annotation (view_at sheet.now k) ≡ false)
        (λ i. (records.start ≤ i) × (i < records.end) × (is Kind.Annotation (view_at sheet.now i) ≡ true) × ((k : ℕ) → records.start ≤ k → k < i → is Kind.Annotation (view_at sheet.now k) ≡ false)) }
{
    (records.start..records.end).find(|j| is_annotation(sheet, *j))
}

// The arguments of the annotation at the first record: the records after it, up to the next annotation.
pub fn arguments(sheet: &[u8], annotation: RecordRange) -> RecordRange
    ensures { view_of sheet.now result.start result.end ≡ (annotation_at sheet.now annotation.start annotation.end).rest }
{
    let rest = rest(annotation);
    RecordRange {
        start: rest.start,
        end: first_annotation(sheet, rest).unwrap_or(rest.end),
    }
}
