// Which record may follow those before: a step of the grammar, and whether the sheet may end.
ghost use Rattle.std.specs.Prelude.{◌≡◌, true, false, List, []};
ghost use Rattle.rules.specs.Words.{within};
ghost use Rattle.rules.specs.Grammar as Grammar;
ghost use Rattle.grammar.specs.declared.state.Body.TheVariants.{Context};
ghost use Rattle.grammar.specs.declared.state.Item.{Item};
ghost use Rattle.grammar.specs.Due.{bare};
ghost use Rattle.grammar.specs.States.{is_bits, type_with, type_in, in_fields, GoesOn, field_list_of, state_of, start_state, step_of};

use crate::due::{Due, Part};
use crate::fields::{field_list_step, is_done, type_part};
use crate::order::in_order;
use crate::state::{Body, Item, State};
use rules::Refusal;
use sheet::{kinds, subs};

// Whether a record of the kind is one of a field list: in a message each, in a variant each that begins no item of the union.
fn in_fields(body: Body, kind: u8) -> bool
    ensures { result ≡ in_fields body kind }
{
    match body {
        Body::Message => true,
        Body::Variant => !sheet::is_variant_item(kind),
        _ => false,
    }
}

impl State {
    // Before the first record.
    pub fn start() -> State
        ensures { result ≡ start_state }
    {
        State {
            body: Body::Context,
            item: Item::Between,
        }
    }

    // Whether the sheet may end there.
    #[tactic(auto, unfolding(rules::specs::Grammar::done, crate::specs::States::state_of))]
    pub fn may_end(self, due: &Due) -> bool
        ensures { result ≡ Grammar.done (state_of self due.now) }
    {
        match self.body {
            Body::Context => false,
            Body::Message | Body::Variant => is_done(due, self.item),
            Body::Unbacked | Body::Backed | Body::Flags | Body::Outside => true,
            Body::Newtype => due.is_empty(),
        }
    }

    // The body begins, or stands between its items.
    fn enter(&mut self, body: Body)
        ensures { self.new ≡ record { body = body; item = Item.Between } }
    {
        self.body = body;
        self.item = Item::Between;
    }

    // A type is due, of depth 1.
    #[tactic(auto, unfolding(crate::specs::States::state_of))]
    fn enter_type(&mut self, due: &mut Due, body: Body)
        ensures { state_of self.new due.new ≡ type_in body Grammar.type_due }
    {
        self.body = body;
        self.item = Item::Typed;
        due.begin(Part::TypeExpr);
    }

    // The body that a head opens.
    #[tactic(auto, unfolding(rules::specs::Grammar::opened, crate::specs::States::state_of))]
    fn open(&mut self, due: &mut Due, sub: u8)
        ensures { state_of self.new due.new ≡ Grammar.opened sub }
    {
        match sub {
            subs::MESSAGE => self.enter(Body::Message),
            subs::ENUM => self.enter(Body::Unbacked),
            subs::FLAGS => self.enter(Body::Flags),
            subs::UNION => self.enter(Body::Outside),
            _ => self.enter_type(due, Body::Newtype),
        }
    }

    // A newtype's inner type, of the context or of the body.
    #[tactic(auto, using(crate::proofs::Bodies::inner_bits, crate::proofs::Bodies::inner_taken))]
    fn inner_step(&mut self, due: &mut Due, kind: u8) -> Result<(), Refusal>
        ensures { step_of result self.new due.new ≡ Grammar.lifted (type_in self.old.body) (Grammar.type_step (type_with (is_bits self.old.item) due.old) (bare kind 0)) }
    {
        if (self.item == Item::BitNames) & (kind == kinds::BIT_NAME) {
            return Ok(());
        }
        self.item = type_part(due, kind)?;
        Ok(())
    }

    // The context after a declaration, an imported name or a wildcard.
    #[tactic(auto, unfolding(crate::specs::States::state_of))]
    fn context_item(&mut self, due: &mut Due, kind: u8, sub: u8)
        requires { due.old ≡ [] }
        ensures { state_of self.new due.new ≡ Grammar.context_item (bare kind sub) }
    {
        if (kind == kinds::DECLARATION) & subs::is_renaming(sub) {
            return self.enter_type(due, Body::Context);
        }
        self.enter(Body::Context)
    }

    // The context: a declaration, an imported name, a wildcard or the head where no type is due, or the type that is.
    #[tactic(auto, using(crate::proofs::KindOnly::type_kind, crate::proofs::Bodies::type_in_context), unfolding(rules::specs::Grammar::context_step, crate::specs::States::state_of))]
    fn context_step(&mut self, due: &mut Due, kind: u8, sub: u8) -> Result<(), Refusal>
        requires { self.old.body ≡ Context }
        ensures { step_of result self.new due.new ≡ Grammar.context_step (type_with (is_bits self.old.item) due.old) (bare kind sub) }
    {
        if matches!(kind, kinds::DECLARATION..=kinds::WILDCARD) {
            in_order(due.is_empty())?;
            self.context_item(due, kind, sub);
            return Ok(());
        }
        if kind == kinds::HEAD {
            in_order(due.is_empty())?;
            self.open(due, sub);
            return Ok(());
        }
        self.inner_step(due, kind)
    }

    // An enum before its backing: the backing, or an item.
    #[tactic(auto, unfolding(rules::specs::Grammar::enum_step, crate::specs::States::state_of))]
    fn unbacked_step(&mut self, kind: u8) -> Result<(), Refusal>
        ensures { (ds : List Grammar.Due) → step_of result self.new ds ≡ Grammar.lifted Grammar.enum (Grammar.enum_step Grammar.unbacked (bare kind 0)) }
    {
        in_order(sheet::is_variant_item(kind) | (kind == kinds::BACKING))?;
        self.enter(Body::Backed);
        Ok(())
    }

    // The item of a union that a record of the kind begins.
    #[tactic(auto, unfolding(crate::specs::States::state_of))]
    fn union_item(&mut self, kind: u8)
        ensures { (ds : List Grammar.Due) → state_of self.new ds ≡ Grammar.union (Grammar.union_item (bare kind 0)) }
    {
        if kind == kinds::VARIANT {
            return self.enter(Body::Variant);
        }
        self.enter(Body::Outside)
    }

    // A union outside its variants: an item.
    #[tactic(auto, unfolding(rules::specs::Grammar::union_step, crate::specs::States::state_of))]
    fn outside_step(&mut self, kind: u8) -> Result<(), Refusal>
        ensures { (ds : List Grammar.Due) → step_of result self.new ds ≡ Grammar.lifted Grammar.union (Grammar.union_step Grammar.outside (bare kind 0)) }
    {
        in_order(sheet::is_variant_item(kind))?;
        self.union_item(kind);
        Ok(())
    }

    // A union in a variant: an item, where the variant's fields may end.
    #[tactic(auto, unfolding(rules::specs::Grammar::union_step, crate::specs::States::state_of))]
    fn variant_item(&mut self, due: &Due, kind: u8) -> Result<(), Refusal>
        requires { within 14 15 kind ≡ true }
        ensures { (ds : List Grammar.Due) → step_of result self.new ds ≡ Grammar.lifted Grammar.union (Grammar.union_step (Grammar.variant (field_list_of self.old.item due.now)) (bare kind 0)) }
    {
        in_order(is_done(due, self.item))?;
        self.union_item(kind);
        Ok(())
    }

    // A step in no field list, and so not in a message.
    #[tactic(auto, using(crate::proofs::KindOnly::type_kind, crate::proofs::KindOnly::enum_kind, crate::proofs::KindOnly::union_kind, crate::proofs::Bodies::items_step, crate::proofs::Bodies::type_in_newtype), unfolding(rules::specs::Grammar::step, crate::specs::States::state_of))]
    fn other_step(&mut self, due: &mut Due, kind: u8, sub: u8) -> Result<(), Refusal>
        requires { in_fields self.old.body kind ≡ false }
        ensures { step_of result self.new due.new ≡ Grammar.step (state_of self.old due.old) (bare kind sub) }
    {
        match self.body {
            Body::Context => self.context_step(due, kind, sub),
            Body::Message => Err(Refusal::OutOfOrder), // row 6
            Body::Unbacked => self.unbacked_step(kind),
            Body::Backed | Body::Flags => in_order(sheet::is_variant_item(kind)),
            Body::Outside => self.outside_step(kind),
            Body::Variant => self.variant_item(due, kind),
            Body::Newtype => self.inner_step(due, kind),
        }
    }

    // Whether the type of a message's field goes on with a type.
    fn type_goes_on(self, due: &Due, kind: u8) -> bool
        ensures { result ≡ true → GoesOn self due.now kind }
    {
        // most records stand where nothing is due, and one test says so
        !due.is_empty()
            && (self.item == Item::Typed)
            && (self.body == Body::Message)
            && sheet::is_type(kind)
    }

    // Takes a record of the kind and the sub, or finds it at fault by row 6 or 7.
    //
    // The most common step comes first, without going by the bodies and the items. A field list is asked for in one place, so that its step is
    // compiled into the pass.
    #[tactic(auto, using(crate::proofs::Bodies::list_taken, crate::proofs::Bodies::list_fault, crate::proofs::Bodies::type_taken))]
    pub fn step(&mut self, due: &mut Due, kind: u8, sub: u8) -> Result<(), Refusal>
        ensures { step_of result self.new due.new ≡ Grammar.step (state_of self.old due.old) (bare kind sub) }
    {
        if self.type_goes_on(due, kind) {
            self.item = type_part(due, kind)?;
            return Ok(());
        }
        if in_fields(self.body, kind) {
            self.item = field_list_step(due, self.item, kind)?;
            return Ok(());
        }
        self.other_step(due, kind, sub)
    }
}
