// The operands that stand directly after a condition, which is the first of some records.
ghost use Rattle.std.specs.Prelude.{◌≡◌};
ghost use mathlib.Core.List.{flat_map};
ghost use Rattle.rules.specs.Conditions.{operand_violations};
ghost use Rattle.diagnostic.specs.Violations.{Adds};
ghost use Rattle.names.specs.Known.{context_in};
ghost use Rattle.names.specs.View.{view_of};
ghost use Rattle.conditions.specs.Taken.{taken};
ghost use Rattle.conditions.specs.Parts.{node_of, operands_at};

use crate::literals::Literals;
use crate::operand::validate_where_operand;
use diagnostic::Violations;
use names::ValidationContext;
use rules::RecordRange;

// The operands of the condition that the records start with; none of no records.
#[tactic(auto, using(crate::proofs::ConditionOperands::operands_none, crate::proofs::ConditionOperands::operands_first))]
fn operands_of(sheet: &[u8], node: RecordRange) -> RecordRange
    ensures { view_of sheet.now result.start result.end ≡ operands_at (node_of sheet.now node) }
{
    if node.is_empty() {
        return node;
    }
    let start = node.start + 1;
    let parts = usize::from(sheet::part_count(sheet::kind(sheet, node.start)));
    RecordRange {
        start,
        end: start + parts.min(node.end - start),
    }
}

// Adds what rules 23 to 27 find at the operands of the condition that the records start with, on a type that takes those literals.
#[tactic(auto, using(types::proofs::Left::leaves_all, types::proofs::EachRecord::leaves_next, types::proofs::EachRecord::leaves_end))]
pub fn validate_where_operands(
    context: ValidationContext,
    violations: &mut Violations,
    node: RecordRange,
    literals: Literals,
)
    ensures { Adds violations.old violations.new (flat_map (operand_violations (context_in context.entry) (taken literals)) (operands_at (node_of context.entry.sheet.now node))) }
{
    let operands = operands_of(context.sheet, node);
    for i in operands.start..operands.end {
        validate_where_operand(context, violations, i, literals);
    }
}
