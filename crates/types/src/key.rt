// Which types may be the key of a set or a map.
ghost use Rattle.std.specs.Prelude.{◌≡◌};
ghost use Rattle.rules.specs.Types.{is_without_key, is_invalid_end, is_invalid_map_key, key_violations};
ghost use Rattle.diagnostic.specs.Violations.{Adds};
ghost use Rattle.names.specs.View.{view_at};
ghost use Rattle.names.specs.Known.{context_in, records_in};

use crate::declared::is_declared_as;
use diagnostic::Violations;
use names::ValidationContext;
use rules::{RecordRange, Rule};
use sheet::{kinds, subs};

// Whether the name of record `i` is declared as a message, a union or a config.
fn is_without_key(context: ValidationContext, i: usize) -> bool
    ensures { result ≡ is_without_key (context_in context.entry) i }
{
    is_declared_as(context, subs::MESSAGE, i)
        | is_declared_as(context, subs::UNION, i)
        | is_declared_as(context, subs::CONFIG, i)
}

// Whether type `i`, at the end of its chain, is a bad key.
#[tactic(auto, unfolding(names::specs::View::view_at, rules::specs::Types::is_invalid_end))]
fn is_invalid_end(context: ValidationContext, i: usize) -> bool
    ensures { result ≡ is_invalid_end (context_in context.entry) (view_at context.entry.sheet.now i) }
{
    match sheet::kind(context.sheet, i) {
        kinds::NAMED => is_without_key(context, i),
        kinds::PRIMITIVE => {
            let sub = sheet::sub(context.sheet, i);
            matches!(sub, subs::F32 | subs::F64 | subs::VOID)
        }
        kind => matches!(kind, kinds::OPTIONAL..=kinds::ARRAY | kinds::SET..=kinds::RESULT),
    }
}

// Whether type `i` is a bad key.
#[tactic(auto, unfolding(names::specs::View::context_by, rules::specs::Types::is_invalid_map_key))]
pub fn is_invalid_map_key(context: ValidationContext, i: usize) -> bool
    ensures { result ≡ is_invalid_map_key (context_in context.entry) (view_at context.entry.sheet.now i) }
{
    is_invalid_end(context, context.chain_end(i))
}

// Adds rule 8 at the key that the records start with.
pub fn check_map_key_type(
    context: ValidationContext,
    violations: &mut Violations,
    rest: RecordRange,
)
    ensures { Adds violations.old violations.new (key_violations (context_in context.entry) (records_in context.entry rest)) }
{
    let Some(key) = rest.first() else {
        return;
    };
    let bad = is_invalid_map_key(context, key);
    violations.tell_if(bad, context.sheet, key, Rule::InvalidMapKey);
}
