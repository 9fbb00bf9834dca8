// A list of items.
ghost use Rattle.std.specs.Prelude.{◌≡◌, ◌≢◌, true};
ghost use Rattle.rules.specs.Kind;

use crate::whole::WholeRecords;
use sheet::kinds;

// A list of items: its records, and the kinds of its items, which have ordinals, and of its tombstones.
#[derive(Clone, Copy)]
pub struct ItemList<'a> {
    pub records: WholeRecords<'a>,
    pub item: u8,
    pub tombstone: u8,
    pub ghost numbered: { Kind.has_ordinal item ≡ true },
    pub ghost apart: { item ≢ tombstone },
}

impl<'a> ItemList<'a> {
    // The fields of a field list.
    #[tactic(auto, unfolding(rules::specs::Words::any_of))]
    pub fn fields(records: WholeRecords<'a>) -> ItemList<'a>
        ensures records { result.records ≡ records.entry }
        ensures kinds { (result.item ≡ Kind.Field) × (result.tombstone ≡ Kind.FieldTombstone) }
    {
        ItemList {
            records,
            item: kinds::FIELD,
            tombstone: kinds::FIELD_TOMBSTONE,
        }
    }

    // The variants of an enum or a union.
    #[tactic(auto, unfolding(rules::specs::Words::any_of))]
    pub fn variants(records: WholeRecords<'a>) -> ItemList<'a>
        ensures records { result.records ≡ records.entry }
        ensures kinds { (result.item ≡ Kind.Variant) × (result.tombstone ≡ Kind.Tombstone) }
    {
        ItemList {
            records,
            item: kinds::VARIANT,
            tombstone: kinds::TOMBSTONE,
        }
    }
}
