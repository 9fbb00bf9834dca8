// Rules 6 to 12 at one type: record `i`, with the records of `rest` after it.
ghost use Rattle.std.specs.Prelude.{◌≡◌};
ghost use Rattle.rules.specs.Context.{is_known_type};
ghost use Rattle.rules.specs.Types.{element_violations, own_type_violations};
ghost use Rattle.diagnostic.specs.Violations.{Adds};
ghost use Rattle.names.specs.View.{view_at};
ghost use Rattle.names.specs.Known.{context_in, records_in};
ghost use Rattle.types.specs.Own.{named_found};

use crate::bits::check_bits;
use crate::declared::is_declared_as;
use crate::key::check_map_key_type;
use crate::valid::is_valid_geometric_element_type;
use diagnostic::Violations;
use names::ValidationContext;
use rules::{RecordRange, Rule};
use sheet::{kinds, subs};

// Whether the name of record `i` is a known type: declared or imported, or any name where there is a wildcard.
fn is_known_type(context: ValidationContext, i: usize) -> bool
    ensures { result ≡ is_known_type (context_in context.entry) i }
{
    context.declaration(i).is_some() | context.is_imported(i) | context.has_wildcard()
}

// Adds rules 6 and 7 at type `i`, which names something.
pub fn check_named(context: ValidationContext, violations: &mut Violations, i: usize)
    ensures { Adds violations.old violations.new (named_found (context_in context.entry) (view_at context.entry.sheet.now i)) }
{
    let config = is_declared_as(context, subs::CONFIG, i);
    violations.tell_if(config, context.sheet, i, Rule::ConfigTypeAsField);
    let known = is_known_type(context, i);
    violations.tell_if(!known, context.sheet, i, Rule::UnknownType);
}

// Adds rule 10 at the element that the records start with.
fn check_element(context: ValidationContext, violations: &mut Violations, rest: RecordRange)
    ensures { Adds violations.old violations.new (element_violations (context_in context.entry) (records_in context.entry rest)) }
{
    let Some(element) = rest.first() else {
        return;
    };
    let valid = is_valid_geometric_element_type(context.sheet, rest);
    violations.tell_if(
        !valid,
        context.sheet,
        element,
        Rule::GeometricInvalidElementType,
    );
}

// Adds rules 6 to 12 at type `i` alone.
#[tactic(auto, using(crate::proofs::OwnKinds::adds_no_rule))]
pub fn check_own_type(
    context: ValidationContext,
    violations: &mut Violations,
    i: usize,
    rest: RecordRange,
)
    ensures { Adds violations.old violations.new (own_type_violations (context_in context.entry) (view_at context.entry.sheet.now i) (records_in context.entry rest)) }
{
    match sheet::kind(context.sheet, i) {
        kinds::NAMED => check_named(context, violations, i),
        kinds::SET..=kinds::MAP => check_map_key_type(context, violations, rest),
        kinds::VEC2..=kinds::MAT4 => check_element(context, violations, rest),
        kinds::BITS_INLINE => check_bits(context, violations, i, rest),
        kinds::FIXED_ARRAY => {
            let empty = sheet::value(context.sheet, i) == 0;
            violations.tell_if(empty, context.sheet, i, Rule::FixedArrayEmpty);
        }
        _ => {}
    }
}
