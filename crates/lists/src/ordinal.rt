// What is wrong with an ordinal.
ghost use Rattle.std.specs.Prelude.{false};
ghost use Rattle.names.specs.View.{view_at};
ghost use Rattle.diagnostic.specs.Violations.{Adds};
ghost use Rattle.lists.specs.Ordinal.{scheme_of, member_found};

use crate::items::MetItem;
use diagnostic::Violations;
use rules::{Rule, Sheet};

// The greatest ordinal of a list, and the rules against one that is over it, one that a tombstone has, and one that is met already. Rules 2, 31 and 35 each name
// a greatest, which today is the same.
#[derive(Clone, Copy)]
pub struct OrdinalRules {
    pub greatest: u64,
    pub too_large: Rule,
    pub reused: Rule,
    pub duplicate: Rule,
}

impl OrdinalRules {
    // rules 2 to 4
    pub const FIELD: OrdinalRules = OrdinalRules {
        greatest: Sheet::MAX_FIELD_ORDINAL,
        too_large: Rule::OrdinalTooLarge,
        reused: Rule::OrdinalReusedAfterRemoved,
        duplicate: Rule::OrdinalDuplicate,
    };

    // rules 31 and 32
    pub const ENUM: OrdinalRules = OrdinalRules {
        greatest: Sheet::MAX_FIELD_ORDINAL,
        too_large: Rule::EnumOrdinalTooLarge,
        reused: Rule::EnumOrdinalDuplicate,
        duplicate: Rule::EnumOrdinalDuplicate,
    };

    // rules 35 and 36
    pub const UNION: OrdinalRules = OrdinalRules {
        greatest: Sheet::MAX_FIELD_ORDINAL,
        too_large: Rule::UnionOrdinalTooLarge,
        reused: Rule::UnionOrdinalDuplicate,
        duplicate: Rule::UnionOrdinalDuplicate,
    };

    // Adds what is wrong with the ordinal of the item.
    #[inline(always)]
    pub fn check(self, violations: &mut Violations, item: MetItem)
        ensures { Adds violations.old violations.new (member_found (scheme_of self) item.entry.meeting.tombstoned item.entry.meeting.met false (view_at item.entry.sheet.now item.entry.index)) }
    {
        // most have nothing wrong with them, and one test says so
        let fine = !item.meeting.tombstoned & !item.meeting.met & (item.ordinal <= self.greatest);
        if fine {
            return;
        }
        let over = self.greatest < item.ordinal;
        violations.tell_ordinal_if(over, item.sheet, item.index, self.too_large);
        violations.tell_ordinal_if(item.meeting.tombstoned, item.sheet, item.index, self.reused);
        let again = !item.meeting.tombstoned & item.meeting.met;
        violations.tell_ordinal_if(again, item.sheet, item.index, self.duplicate);
    }
}
