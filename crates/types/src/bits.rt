// The bit names of inline bits: the records of their kind that the records start with. What is found is told at the type's span.
ghost use Rattle.std.specs.Prelude.{◌≡◌};
ghost use Rattle.rules.specs.Words.{front};
ghost use Rattle.rules.specs.Kind;
ghost use Rattle.rules.specs.Record.{is};
ghost use Rattle.rules.specs.Types.{bit_name_violations};
ghost use Rattle.diagnostic.specs.Violations.{Adds};
ghost use Rattle.names.specs.View.{view_at};
ghost use Rattle.names.specs.Known.{context_in, records_in};

use diagnostic::Violations;
use names::ValidationContext;
use rules::{RecordRange, Rule};
use sheet::kinds;

// Adds rule 11 at type `i` where there is no bit name, and rule 12 for each that is not valid.
pub fn check_bits(
    context: ValidationContext,
    violations: &mut Violations,
    i: usize,
    rest: RecordRange,
)
    ensures { Adds violations.old violations.new (bit_name_violations (context_in context.entry) (view_at context.entry.sheet.now i).place (front (is Kind.BitName) (records_in context.entry rest))) }
{
    let sheet = context.sheet;
    let named = rest
        .first()
        .is_some_and(|first| sheet::kind(sheet, first) == kinds::BIT_NAME);
    violations.tell_if(!named, sheet, i, Rule::BitsInlineEmpty);
    for bit in rest.start..rest.end {
        if sheet::kind(sheet, bit) != kinds::BIT_NAME {
            return;
        }
        let valid = context.is_valid_field_name(bit);
        violations.tell_if(!valid, sheet, i, Rule::InvalidBitName);
    }
}
