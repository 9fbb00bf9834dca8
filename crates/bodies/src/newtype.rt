// A newtype: rules 37 and 38.
ghost use Rattle.rules.specs.Bodies.{newtype_violations};
ghost use Rattle.names.specs.Known.{context_in, records_in};
ghost use Rattle.diagnostic.specs.Violations.{Adds};

use diagnostic::Violations;
use lists::WholeRecords;
use rules::Rule;
use sheet::{kinds, subs};

// Adds what is wrong with the newtype whose inner type the records start with.
pub fn check_newtype(body: WholeRecords, violations: &mut Violations)
    ensures { Adds violations.old violations.new (newtype_violations (context_in body.entry.context) (records_in body.entry.context body.entry.range)) }
{
    let Some(inner) = body.range.first() else {
        return;
    };
    let context = body.context;
    let named = sheet::kind(context.sheet, inner) == kinds::NAMED;
    let newtype = named & types::is_declared_as(context, subs::NEWTYPE, inner);
    violations.tell_if(newtype, context.sheet, inner, Rule::NewtypeOverNewtype);
    let config = named & types::is_declared_as(context, subs::CONFIG, inner);
    violations.tell_if(config, context.sheet, inner, Rule::NewtypeOverConfig);
}
