ghost use Rattle.std.specs.Prelude.{◌≡◌, IfOk};
ghost use Rattle.quorum.specs.Sets.{Family, Judges, bits};
ghost use Rattle.quorum.specs.Meaning.{rule_of};
ghost use Rattle.quorum.specs.Families.{grouped, grouped_rule};
ghost use Rattle.std.specs.Result.{result_err};
ghost use Rattle.quorum.specs.Refusals.{Product, product_refusal};
ghost use Rattle.quorum.specs.Laws.{Lawful};

use crate::members::{below, joined};
use crate::product::product_fits;
use crate::refusal::RuleRefusal;
use crate::system::QuorumSystem;

/// Groups of equal size, numbered group by group, over any two rules.
/// Round: the groups whose part is round by the inner rule are round by the outer one. Hold: likewise.
#[derive(Drop)]
pub struct Groups<O, I> {
    outer: O,
    inner: I,
    // stored: no invariant of a rule speaks of a rule below it
    groups: u32,
    places: u32,
    ghost ok: { Product groups places },
}

impl<O: QuorumSystem + Drop, I: QuorumSystem + Drop> Groups<O, I> {
    /// The rule over a group for each replica of the outer rule, each of the inner rule's size, or why there is none. It is
    /// lawful if both are.
    pub fn new(outer: O, inner: I) -> Result<Groups<O, I>, RuleRefusal>
        ensures declines { result_err result ≡ product_refusal (O.QuorumSystem.size outer) (I.QuorumSystem.size inner) }
        ensures makes { IfOk result (λ v.
            (v.outer ≡ outer) × (v.inner ≡ inner)
            × (v.groups ≡ O.QuorumSystem.size outer) × (v.places ≡ I.QuorumSystem.size inner)
            × (Lawful (rule_of O.QuorumSystem outer) → Lawful (rule_of I.QuorumSystem inner)
            → Lawful (rule_of ⟦<Groups<O, I> as QuorumSystem>⟧ v))) }
    {
        let groups = outer.size();
        let places = inner.size();
        if !product_fits(groups, places) {
            return Err(RuleRefusal::OutOfLimits);
        }
        Ok(Groups {
            outer,
            inner,
            groups,
            places,
        })
    }
}

impl<O: QuorumSystem, I: QuorumSystem> Groups<O, I> {
    /// The groups whose part of the members is in the family that the test decides.
    fn passing<P: Fn(u32) -> bool>(&self, test: P, members: u32) -> u32
        requires { P.IsAlwaysCallable test }
        ensures { (family : Family) → Judges (P.post test) family
            → bits result ≡ grouped self.now.groups self.now.places family (bits members) }
    {
        let mut set = 0;
        for g in 0..self.groups {
            let part = (members >> (g * self.places)) & below(self.places);
            if test(part) {
                set = joined(set, g);
            }
        }
        set
    }

    /// The groups whose part is round by the inner rule.
    fn round_groups(&self, members: u32) -> u32
        ensures { bits result ≡ grouped self.now.groups self.now.places
            (I.QuorumSystem.round self.now.inner) (bits members) }
    {
        self.passing(|part| self.inner.is_round(part), members)
    }

    /// The groups whose part is hold by the inner rule.
    fn hold_groups(&self, members: u32) -> u32
        ensures { bits result ≡ grouped self.now.groups self.now.places
            (I.QuorumSystem.hold self.now.inner) (bits members) }
    {
        self.passing(|part| self.inner.is_hold(part), members)
    }
}

impl<O: QuorumSystem, I: QuorumSystem> QuorumSystem for Groups<O, I> {
    ghost size = { λ s. (grouped_rule s.groups s.places (rule_of O.QuorumSystem s.outer) (rule_of I.QuorumSystem s.inner)).size };

    ghost round = { λ s. (grouped_rule s.groups s.places (rule_of O.QuorumSystem s.outer) (rule_of I.QuorumSystem s.inner)).round };

    ghost hold = { λ s. (grouped_rule s.groups s.places (rule_of O.QuorumSystem s.outer) (rule_of I.QuorumSystem s.inner)).hold };

    fn size(&self) -> u32 {
        self.groups * self.places
    }

    fn is_round(&self, members: u32) -> bool {
        self.outer.is_round(self.round_groups(members))
    }

    fn is_hold(&self, members: u32) -> bool {
        self.outer.is_hold(self.hold_groups(members))
    }
}
