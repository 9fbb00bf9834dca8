// One condition, without the conditions that are parts of it: rules 23 to 30. It is the first of some records, and those after it have its parts.
ghost use Rattle.diagnostic.specs.Violations.{Adds};
ghost use Rattle.names.specs.Known.{context_in};
ghost use Rattle.conditions.specs.Taken.{taken};
ghost use Rattle.conditions.specs.Parts.{node_of, comparison_violations, range_violations, length_violations, node_violations};

use crate::literals::{Literals, length_literals};
use crate::operands::validate_where_operands;
use crate::operator::validate_cmp_operator;
use diagnostic::Violations;
use names::ValidationContext;
use rules::{RecordRange, Rule};
use sheet::kinds;

// Adds what rules 23 to 28 find at a comparison.
fn validate_cmp(
    context: ValidationContext,
    violations: &mut Violations,
    node: RecordRange,
    literals: Literals,
)
    ensures { Adds violations.old violations.new (comparison_violations (context_in context.entry) (taken literals) (node_of context.entry.sheet.now node)) }
{
    validate_where_operands(context, violations, node, literals);
    validate_cmp_operator(context.sheet, violations, node.start, literals.int);
}

// Adds what rules 23 to 27 and 29 find at a range.
fn validate_range(
    context: ValidationContext,
    violations: &mut Violations,
    node: RecordRange,
    literals: Literals,
)
    ensures { Adds violations.old violations.new (range_violations (context_in context.entry) (taken literals) (node_of context.entry.sheet.now node)) }
{
    validate_where_operands(context, violations, node, literals);
    violations.tell_if(
        !literals.int,
        context.sheet,
        node.start,
        Rule::WhereClauseRangeInvalid,
    );
}

// Adds what rule 30 and then rules 23 to 27 find at a comparison or a range of a length, on a field that is a collection or not.
fn validate_len(
    context: ValidationContext,
    violations: &mut Violations,
    node: RecordRange,
    collection: bool,
)
    ensures { Adds violations.old violations.new (length_violations (context_in context.entry) collection (node_of context.entry.sheet.now node)) }
{
    violations.tell_if(
        !collection,
        context.sheet,
        node.start,
        Rule::WhereClauseLenOnNonCollection,
    );
    validate_where_operands(context, violations, node, length_literals());
}

// Adds what rules 23 to 30 find at the condition itself, on a field that takes those literals and is a collection or not. The two go together through this
// call alone: a comparison and a range take the one, a length the other.
pub fn validate_node(
    context: ValidationContext,
    violations: &mut Violations,
    node: RecordRange,
    literals: Literals,
    collection: bool,
)
    ensures { Adds violations.old violations.new (node_violations (context_in context.entry) (taken literals) collection (node_of context.entry.sheet.now node)) }
{
    match sheet::kind(context.sheet, node.start) {
        kinds::CMP => validate_cmp(context, violations, node, literals),
        kinds::RANGE => validate_range(context, violations, node, literals),
        kinds::LEN_CMP | kinds::LEN_RANGE => validate_len(context, violations, node, collection),
        _ => {}
    }
}
