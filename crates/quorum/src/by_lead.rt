ghost use Rattle.std.specs.Prelude.{◌≡◌, ◌<◌, IfOk};
ghost use Rattle.quorum.specs.Meaning.{rule_of};
ghost use Rattle.quorum.specs.Families.{lead_rule};
ghost use Rattle.std.specs.Result.{result_err};
ghost use Rattle.quorum.specs.Refusals.{lead_refusal};
ghost use Rattle.quorum.specs.Laws.{Lawful};

use crate::members::{MOST_REPLICAS, has};
use crate::refusal::RuleRefusal;
use crate::system::QuorumSystem;

/// One replica leads, over any rule.
/// Round: round below, with the lead. Hold: hold below, or any set with the lead.
#[derive(Drop)]
pub struct Lead<R> {
    lead: u32,
    // stored: no invariant of a rule speaks of a rule below it
    size: u32,
    below: R,
    ghost low: { lead < size },
}

impl<R: QuorumSystem + Drop> Lead<R> {
    /// The rule with this replica as the lead over a rule, or why there is none. It is lawful if that is.
    #[tactic(auto, using(crate::proofs::LeadLaws::led_lawful))]
    pub fn new(below: R, lead: u32) -> Result<Lead<R>, RuleRefusal>
        ensures declines { result_err result ≡ lead_refusal (R.QuorumSystem.size below) lead }
        ensures makes { IfOk result (λ v.
            (v.below ≡ below) × (v.lead ≡ lead) × (v.size ≡ R.QuorumSystem.size below)
            × (Lawful (rule_of R.QuorumSystem below) → Lawful (rule_of ⟦<Lead<R> as QuorumSystem>⟧ v))) }
    {
        let size = below.size();
        if size > MOST_REPLICAS || lead >= size {
            return Err(RuleRefusal::OutOfLimits);
        }
        Ok(Lead { lead, size, below })
    }
}

impl<R: QuorumSystem> QuorumSystem for Lead<R> {
    ghost size = { λ s. (lead_rule s.size (rule_of R.QuorumSystem s.below) s.lead).size };

    ghost round = { λ s. (lead_rule s.size (rule_of R.QuorumSystem s.below) s.lead).round };

    ghost hold = { λ s. (lead_rule s.size (rule_of R.QuorumSystem s.below) s.lead).hold };

    fn size(&self) -> u32 {
        self.size
    }

    fn is_round(&self, members: u32) -> bool {
        self.below.is_round(members) && has(members, self.lead)
    }

    fn is_hold(&self, members: u32) -> bool {
        self.below.is_hold(members) || has(members, self.lead)
    }
}
