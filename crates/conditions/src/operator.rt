// The operator of a comparison: rule 28.
ghost use Rattle.std.specs.Prelude.{◌≡◌};
ghost use Rattle.rules.specs.Words.{within};
ghost use Rattle.rules.specs.Sub;
ghost use Rattle.diagnostic.specs.Violations.{Adds};
ghost use Rattle.names.specs.View.{view_at};
ghost use Rattle.conditions.specs.Parts.{operator_violations};

use diagnostic::Violations;
use rules::Rule;
use sheet::{kinds, subs};

// Whether a comparison of that sub orders: Lt, Gt, Le, Ge.
fn orders(sub: u8) -> bool
    ensures { result ≡ within Sub.Lt Sub.Ge sub }
{
    matches!(sub, subs::LT..=subs::GE)
}

// Adds what rule 28 finds at record `i`, if it is a comparison, on a field that is numeric or not.
#[tactic(auto, unfolding(names::specs::View::view_at, crate::specs::Parts::operator_violations))]
pub fn validate_cmp_operator(sheet: &[u8], violations: &mut Violations, i: usize, numeric: bool)
    ensures { Adds violations.old violations.new (operator_violations numeric (view_at sheet.now i)) }
{
    let ordered = (sheet::kind(sheet, i) == kinds::CMP) & orders(sheet::sub(sheet, i));
    let bad = ordered & !numeric;
    violations.tell_if(bad, sheet, i, Rule::WhereClauseOperatorInvalid);
}
