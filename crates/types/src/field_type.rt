// Rules 6 to 12 of a type and of its parts. A map's key and a generic's part are skipped, and so is all within them.
ghost use Rattle.std.specs.Prelude.{◌≡◌, ◌+◌, ◌<◌, ◌≤◌, ◌^◌, ◌&&◌, nat_eq, length};
ghost use Rattle.rules.specs.Words.{only_if};
ghost use Rattle.rules.specs.Kind;
ghost use Rattle.rules.specs.Types.{own_type_violations, type_violations};
ghost use Rattle.diagnostic.specs.Violations.{Adds};
ghost use Rattle.names.specs.View.{view_at};
ghost use Rattle.names.specs.Known.{context_in, records_in};
ghost use Rattle.types.specs.Due.{stack_of, stack_after, is_checked, is_passed};

use crate::own::{check_named, check_own_type};
use diagnostic::Violations;
use names::ValidationContext;
use rules::RecordRange;
use sheet::kinds;

// The types that are due: first those that are skipped, then those that are checked.
#[derive(Clone, Copy)]
pub struct Due {
    pub skipped: usize,
    pub checked: usize,
}

impl Due {
    // Whether the next type is one that is checked.
    #[tactic(auto, using(crate::proofs::Stack::first_checked))]
    fn is_checked(self) -> bool
        ensures { result ≡ is_checked (stack_of self) }
    {
        (self.skipped == 0) & (self.checked != 0)
    }

    // Whether no type is due.
    fn is_empty(self) -> bool
        ensures { result ≡ (nat_eq self.skipped 0 && nat_eq self.checked 0) }
    {
        (self.skipped == 0) & (self.checked == 0)
    }

    // What is due after a type of that kind.
    #[tactic(auto, using(crate::proofs::Stack::due_after))]
    fn after(self, kind: u8) -> Due
        requires room { self.skipped + self.checked + 1 < 2 ^ 64 }
        requires is_type { kind ≡ Kind.BitName → ⊥ }
        ensures stack { stack_of result ≡ stack_after (stack_of self) kind }
        ensures few { result.skipped + result.checked ≤ self.skipped + self.checked + 1 }
    {
        let Due { skipped, checked } = self;
        let parts = parts_of(kind);
        if 0 < skipped {
            return Due {
                skipped: skipped - 1 + parts,
                checked,
            };
        }
        if checked == 0 {
            return self;
        }
        match kind {
            kinds::MAP => Due {
                skipped: 1,
                checked,
            },
            kinds::GENERIC => Due {
                skipped: 1,
                checked: checked - 1,
            },
            _ => Due {
                skipped: 0,
                checked: checked - 1 + parts,
            },
        }
    }
}

// How many parts follow a record of the kind, at most two.
#[tactic(auto, using(crate::proofs::Stack::few_parts))]
fn parts_of(kind: u8) -> usize
    ensures value { result ≡ length (Kind.parts_of kind) }
    ensures few { result ≤ 2 }
{
    usize::from(sheet::part_count(kind))
}

// Whether record `i` is passed: a bit name, an optional, an array, or a fixed array that has elements.
#[tactic(auto, unfolding(names::specs::View::view_at, crate::specs::Due::is_passed))]
fn is_passed(sheet: &[u8], i: usize) -> bool
    ensures { result ≡ is_passed (view_at sheet.now i) }
{
    match sheet::kind(sheet, i) {
        kinds::OPTIONAL..=kinds::ARRAY => true,
        kinds::FIXED_ARRAY => sheet::value(sheet, i) != 0,
        kind => kind == kinds::BIT_NAME,
    }
}

// Adds rules 6 to 12 at type `i` alone, if it is checked.
#[tactic(auto, using(diagnostic::proofs::Added::adds_none))]
fn check_due_type(
    context: ValidationContext,
    violations: &mut Violations,
    due: Due,
    i: usize,
    rest: RecordRange,
)
    ensures { Adds violations.old violations.new (only_if (is_checked (stack_of due)) (own_type_violations (context_in context.entry) (view_at context.entry.sheet.now i) (records_in context.entry rest))) }
{
    if due.is_checked() {
        check_own_type(context, violations, i, rest);
    }
}

// Adds rules 6 to 12 of the type, part by part.
#[tactic(auto, using(crate::proofs::Walk::types_rules))]
fn check_types(context: ValidationContext, violations: &mut Violations, ty: RecordRange)
    ensures { Adds violations.old violations.new (type_violations (context_in context.entry) (records_in context.entry ty)) }
{
    let mut due = Due {
        skipped: 0,
        checked: 1,
    };
    for i in ty.start..ty.end {
        if is_passed(context.sheet, i) {
            continue;
        }
        let rest = ty.starting_at(i + 1);
        // asked before the check writes, so that it is read but once
        let kind = sheet::kind(context.sheet, i);
        check_due_type(context, violations, due, i, rest);
        // what is due after the last record is never asked, and might not fit
        if rest.is_empty() {
            return;
        }
        due = due.after(kind);
        if due.is_empty() {
            return;
        }
    }
}

// Adds rules 6 to 12 of the type.
pub fn check_field_type(context: ValidationContext, violations: &mut Violations, ty: RecordRange)
    ensures { Adds violations.old violations.new (type_violations (context_in context.entry) (records_in context.entry ty)) }
{
    let Some(first) = ty.first() else {
        return;
    };
    match sheet::kind(context.sheet, first) {
        // a type of these kinds has no parts, and no rule but those of its name
        kinds::PRIMITIVE..=kinds::SEMANTIC => {}
        kinds::NAMED => check_named(context, violations, first),
        _ => check_types(context, violations, ty),
    }
}
