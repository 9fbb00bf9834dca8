// The violations of a check so far: in the list that the caller lends those that fit it, and the counts of all.
ghost use Rattle.std.specs.Prelude.{◌≡◌, true};
ghost use Rattle.rules.specs.Record.{record_bytes, span_in, ordinal_span_in};
ghost use Rattle.rules.specs.Rule.{found_if};
ghost use Rattle.rules.specs.RuleNumber.{rule_number};
ghost use Rattle.diagnostic.specs.Push.{push_one};
ghost use Rattle.diagnostic.specs.Violations.{state_of, Adds};

use crate::list::{count_one, store};
use rules::{Counts, Rule, Span, Violation};

#[derive(Drop)]
pub struct Violations<'a> {
    pub list: &'a mut [u8],
    pub counts: Counts,
}

impl<'a> Violations<'a> {
    // None yet, in that list.
    pub fn new(list: &'a mut [u8]) -> Violations<'a>
        ensures reference { result.list.ghost_name ≡ list.entry.ghost_name }
        ensures state { state_of result ≡ (list.old, record { total = 0; errors = 0 }) }
    {
        Violations {
            list,
            counts: Counts {
                total: 0,
                errors: 0,
            },
        }
    }

    // Adds the violation: writes it if there is room for it, and counts it in any case.
    fn push(&mut self, violation: Violation)
        ensures reference { self.new.list.ghost_name ≡ self.old.list.ghost_name }
        ensures state { state_of self.new ≡ push_one violation (state_of self.old) }
    {
        store(self.list, self.counts.total, violation);
        self.counts = count_one(self.counts, violation.severity);
    }

    // Tells the rule at that span.
    #[tactic(auto, unfolding(crate::specs::Push::push_all, crate::specs::Push::push_found))]
    fn tell(&mut self, span: Span, rule: Rule)
        ensures { Adds self.old self.new (found_if (rule_number rule) true span) }
    {
        self.push(rule.violation_at(span));
    }

    // Tells the rule at record `i` if `bad`. The span is read only where it is told.
    #[tactic(auto, using(crate::proofs::Added::adds_none))]
    pub fn tell_if(&mut self, bad: bool, sheet: &[u8], i: usize, rule: Rule)
        ensures { Adds self.old self.new (found_if (rule_number rule) bad (span_in (record_bytes sheet.now i))) }
    {
        if bad {
            self.tell(sheet::span(sheet, i), rule);
        }
    }

    // Tells the rule at the ordinal of record `i` if `bad`.
    #[tactic(auto, using(crate::proofs::Added::adds_none))]
    pub fn tell_ordinal_if(&mut self, bad: bool, sheet: &[u8], i: usize, rule: Rule)
        ensures { Adds self.old self.new (found_if (rule_number rule) bad (ordinal_span_in (record_bytes sheet.now i))) }
    {
        if bad {
            self.tell(sheet::ordinal_span(sheet, i), rule);
        }
    }
}
