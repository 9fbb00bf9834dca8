// A whole condition: rules 23 to 30.
ghost use Rattle.rules.specs.Conditions.{condition_violations};
ghost use Rattle.diagnostic.specs.Violations.{Adds};
ghost use Rattle.names.specs.Known.{context_in, records_in};

use crate::literals::literals_of;
use crate::node::validate_node;
use diagnostic::Violations;
use names::ValidationContext;
use rules::RecordRange;

// Adds what rules 23 to 30 find at the condition on a field of that type.
#[tactic(auto, using(types::proofs::Left::leaves_all, crate::proofs::WholeCondition::condition_next, crate::proofs::WholeCondition::condition_end))]
pub fn validate_where_expr(
    context: ValidationContext,
    violations: &mut Violations,
    condition: RecordRange,
    ty: RecordRange,
)
    ensures { Adds violations.old violations.new (condition_violations (context_in context.entry) (records_in context.entry ty) (records_in context.entry condition)) }
{
    let literals = literals_of(context.sheet, ty);
    let collection = types::is_collection_type(context.sheet, ty);
    for start in condition.start..condition.end {
        validate_node(
            context,
            violations,
            condition.starting_at(start),
            literals,
            collection,
        );
    }
}
