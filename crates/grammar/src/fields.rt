// The items of a field list.
ghost use Rattle.std.specs.Prelude.{◌≡◌, true, false, eqb};
ghost use Rattle.rules.specs.Kind;
ghost use Rattle.rules.specs.Grammar.{part_step, type_step, field_step, field_list_step, field_list_done, in_field_item, lifted, field, typed, conditioned, annotations, type_due};
ghost use Rattle.grammar.specs.Due.{bare};
ghost use Rattle.grammar.specs.States.{field_list_of, begun_by, condition_due, type_with, type_item, typed_of, item_step_of};

use crate::due::{Due, Part};
use crate::order::in_order;
use crate::state::Item;
use rules::Refusal;
use sheet::kinds;

// Whether the field list may end there.
pub fn is_done(due: &Due, item: Item) -> bool
    ensures { result ≡ field_list_done (field_list_of item due.now) }
{
    match item {
        Item::Between => true,
        Item::Opened | Item::Annotated => false,
        Item::Typed | Item::BitNames | Item::Conditioned => due.is_empty(),
    }
}

// Where a type stands after a record of the kind, one of its parts: a bit name may come after an inline type of bits.
fn after_type(kind: u8) -> Item
    ensures { result ≡ type_item (eqb kind Kind.BitsInline) }
{
    if kind == kinds::BITS_INLINE {
        return Item::BitNames;
    }
    Item::Typed
}

// A part of a type, and where the type stands then.
pub fn type_part(due: &mut Due, kind: u8) -> Result<Item, Refusal>
    ensures { typed_of result due.new ≡ lifted (λ ds. (type_item (eqb kind Kind.BitsInline), ds)) (part_step due.old (bare kind 0)) }
{
    due.part_step(kind)?;
    Ok(after_type(kind))
}

// A field's type begins: one is due, of depth 1.
#[tactic(auto, using(crate::proofs::Items::type_field))]
fn type_begins(due: &mut Due, kind: u8) -> Result<Item, Refusal>
    ensures { item_step_of result due.new ≡ lifted (λ t. field (typed t)) (type_step type_due (bare kind 0)) }
{
    due.begin(Part::TypeExpr);
    type_part(due, kind)
}

// A field, where an annotation or the type may come.
#[tactic(auto, using(crate::proofs::Items::opened_type), unfolding(rules::specs::Grammar::field_step))]
fn opened_step(due: &mut Due, kind: u8) -> Result<Item, Refusal>
    ensures { item_step_of result due.new ≡ lifted field (field_step (annotations false) (bare kind 0)) }
{
    if kind == kinds::ANNOTATION {
        return Ok(Item::Annotated);
    }
    type_begins(due, kind)
}

// A field in its annotations, where an argument may come besides.
#[tactic(auto, unfolding(rules::specs::Grammar::field_step))]
fn annotated_step(due: &mut Due, kind: u8) -> Result<Item, Refusal>
    ensures { item_step_of result due.new ≡ lifted field (field_step (annotations true) (bare kind 0)) }
{
    if kind == kinds::ARGUMENT {
        return Ok(Item::Annotated);
    }
    opened_step(due, kind)
}

// A field in its condition.
fn conditioned_step(due: &mut Due, kind: u8) -> Result<Item, Refusal>
    ensures { item_step_of result due.new ≡ lifted (λ ds. field (conditioned ds)) (part_step due.old (bare kind 0)) }
{
    due.part_step(kind)?;
    Ok(Item::Conditioned)
}

// A field's condition begins: one is due, of depth 1.
fn condition_begins(due: &mut Due, kind: u8) -> Result<Item, Refusal>
    ensures { item_step_of result due.new ≡ lifted (λ ds. field (conditioned ds)) (part_step condition_due (bare kind 0)) }
{
    due.begin(Part::Condition);
    conditioned_step(due, kind)
}

// A field in its type: the type goes on, or a condition begins where the type has ended.
#[tactic(auto, using(crate::proofs::Items::condition_instead, crate::proofs::Items::type_goes_on), unfolding(rules::specs::Grammar::field_step))]
fn typed_step(due: &mut Due, kind: u8) -> Result<Item, Refusal>
    ensures { item_step_of result due.new ≡ lifted field (field_step (typed (type_with false due.old)) (bare kind 0)) }
{
    if due.is_empty() {
        return condition_begins(due, kind);
    }
    type_part(due, kind)
}

// A field in its type, where a bit name may come besides.
#[tactic(auto, using(crate::proofs::Items::bit_name_taken, crate::proofs::Items::bits_aside))]
fn bit_names_step(due: &mut Due, kind: u8) -> Result<Item, Refusal>
    ensures { item_step_of result due.new ≡ lifted field (field_step (typed (type_with true due.old)) (bare kind 0)) }
{
    if kind == kinds::BIT_NAME {
        return Ok(Item::BitNames);
    }
    typed_step(due, kind)
}

// A record within an item.
#[tactic(auto, using(crate::proofs::Items::lifted_twice), unfolding(rules::specs::Grammar::field_step))]
fn within_item(due: &mut Due, item: Item, kind: u8) -> Result<Item, Refusal>
    ensures { item_step_of result due.new ≡ in_field_item (field_list_of item due.old) (bare kind 0) }
{
    match item {
        Item::Between => Err(Refusal::OutOfOrder), // row 6
        Item::Opened => opened_step(due, kind),
        Item::Annotated => annotated_step(due, kind),
        Item::Typed => typed_step(due, kind),
        Item::BitNames => bit_names_step(due, kind),
        Item::Conditioned => conditioned_step(due, kind),
    }
}

// The item that a record of the kind begins.
fn begun(kind: u8) -> Item
    ensures { result ≡ begun_by kind }
{
    if kind == kinds::FIELD {
        return Item::Opened;
    }
    Item::Between
}

// A field list: an item begins where the one before may end, or goes on.
#[tactic(auto, unfolding(rules::specs::Grammar::field_list_step))]
pub fn field_list_step(due: &mut Due, item: Item, kind: u8) -> Result<Item, Refusal>
    ensures { item_step_of result due.new ≡ field_list_step (field_list_of item due.old) (bare kind 0) }
{
    if sheet::is_field_item(kind) {
        in_order(is_done(due, item))?;
        return Ok(begun(kind));
    }
    within_item(due, item, kind)
}
