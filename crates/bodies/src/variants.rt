// The variants of an enum or a union, by their ordinals: rules 31, 32, 35 and 36.
ghost use Rattle.std.specs.Prelude.{ℕ, List};
ghost use Rattle.rules.specs.declared.span.Span.{Span};
ghost use Rattle.rules.specs.Record.{Rec};
ghost use Rattle.rules.specs.Rule.{Found};
ghost use Rattle.rules.specs.Bodies.{body_items, list_violations};
ghost use Rattle.names.specs.Known.{context_in, records_in};
ghost use Rattle.diagnostic.specs.Violations.{Adds};
ghost use Rattle.lists.specs.Ordinal.{scheme_of};
ghost use Rattle.bodies.specs.VariantParts.{at_variant, AddsParts};

use diagnostic::Violations;
use lists::{OrdinalRules, Seen, WholeRecords};
use sheet::kinds;

// Adds what is wrong with the variants of the body: with the ordinal of each by those rules, and then with its parts, which the records that `check_parts` is
// called with start with.
pub fn check_variants<'a, F: FnMut(WholeRecords<'a>, &mut Violations)>(
    body: WholeRecords<'a>,
    violations: &mut Violations,
    rules: OrdinalRules,
    mut check_parts: F,
)
    requires { F.IsAlwaysCallable check_parts }
    ensures { (parts : List (Rec ℕ Span) → List (Found Span)) → AddsParts F.step (context_in body.entry.context) parts → Adds violations.old violations.new (list_violations (context_in body.entry.context) (scheme_of rules) (at_variant parts) (body_items (records_in body.entry.context body.entry.range))) }
{
    let mut seen = Seen::variants(body);
    seen.collect();
    for i in body.range.start..body.range.end {
        // most records of a union are parts of its variants, and the body tells them apart in fewer steps than the list
        if body.kind(i) != kinds::VARIANT {
            continue;
        }
        let Some(variant) = seen.meet(i) else {
            continue;
        };
        rules.check(violations, variant);
        check_parts(body.behind(i), violations);
    }
}
