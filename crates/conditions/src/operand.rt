// The operands of a condition: rules 23 to 27.
ghost use Rattle.std.specs.Prelude.{◌≡◌};
ghost use Rattle.rules.specs.Context.{is_known_const};
ghost use Rattle.rules.specs.Conditions.{operand_violations};
ghost use Rattle.diagnostic.specs.Violations.{Adds};
ghost use Rattle.names.specs.Known.{context_in};
ghost use Rattle.names.specs.View.{view_at};
ghost use Rattle.conditions.specs.Taken.{taken, operand_of};

use crate::literals::Literals;
use diagnostic::Violations;
use names::ValidationContext;
use rules::Rule;
use sheet::{kinds, subs};

// Whether the name of record `i` is a declared constant's, or imported.
#[tactic(auto, unfolding(names::specs::View::context_by))]
fn is_known_const(context: ValidationContext, i: usize) -> bool
    ensures { result ≡ is_known_const (context_in context.entry) i }
{
    context.is_imported(i) || types::is_declared_as(context, subs::CONST, i)
}

// What an operand is: a literal of a kind, or the name of a constant.
#[derive(Clone, Copy)]
enum Operand {
    Int,
    Float,
    String,
    Bool,
    ConstRef,
}

impl Operand {
    // The operand with that sub; none of a sub that no rule speaks of. An Option and no `TryFrom`: such a sub is no error, and an error type of its own would be read
    // by no caller.
    #[tactic(auto, unfolding(crate::specs::Taken::operand_of))]
    fn with_sub(sub: u8) -> Option<Operand>
        ensures { result ≡ operand_of sub }
    {
        match sub {
            subs::INT_OPERAND => Some(Operand::Int),
            subs::FLOAT_OPERAND => Some(Operand::Float),
            subs::STRING_OPERAND => Some(Operand::String),
            subs::BOOL_OPERAND => Some(Operand::Bool),
            subs::CONST_REF => Some(Operand::ConstRef),
            _ => None,
        }
    }
}

// Adds what rules 23 to 27 find at record `i`, if it is an operand, on a type that takes those literals.
pub fn validate_where_operand(
    context: ValidationContext,
    violations: &mut Violations,
    i: usize,
    literals: Literals,
)
    ensures { Adds violations.old violations.new (operand_violations (context_in context.entry) (taken literals) (view_at context.entry.sheet.now i)) }
{
    if sheet::kind(context.sheet, i) != kinds::OPERAND {
        return;
    }
    let Some(operand) = Operand::with_sub(sheet::sub(context.sheet, i)) else {
        return;
    };
    let (taken, rule) = match operand {
        Operand::Int => (literals.int, Rule::WhereClauseIntMismatch),
        Operand::Float => (literals.float, Rule::WhereClauseFloatMismatch),
        Operand::String => (literals.string, Rule::WhereClauseStringMismatch),
        Operand::Bool => (literals.boolean, Rule::WhereClauseBoolMismatch),
        Operand::ConstRef => (
            is_known_const(context, i),
            Rule::WhereClauseConstRefNotFound,
        ),
    };
    violations.tell_if(!taken, context.sheet, i, rule);
}
