ghost use Rattle.std.specs.Prelude.{◌≡◌, IfOk};
ghost use Rattle.std.specs.Result.{result_err};
ghost use Rattle.quorum.specs.Meaning.{rule_of};
ghost use Rattle.register.specs.Commissioning.{draft_refusal};
ghost use Rattle.register.specs.Service.{drafted};

use super::Draft;
use quorum::{QuorumSystem, RuleRefusal};

impl<R: QuorumSystem + Drop, F: Copy> Draft<R, F> {
    /// A draft of a register with this rule, for so many readers, that starts with this figure.
    ///
    /// Refused with `OutOfLimits` (1), and the rule is used up, unless the rule has 1 to 24 replicas and there are 1 to 32 readers.
    pub fn new(rule: R, readers: u32, start: F) -> Result<Draft<R, F>, RuleRefusal>
        ensures declines { result_err result ≡ draft_refusal (R.QuorumSystem.size rule) readers }
        ensures makes { IfOk result (λ d. (d.rule ≡ rule) × (d.replicas ≡ R.QuorumSystem.size rule) × (d.readers ≡ readers) × (d.start ≡ start)
            × (drafted R.QuorumSystem d ≡ rule_of R.QuorumSystem rule)) }
    {
        let replicas = rule.size();
        if !(1..=24).contains(&replicas) || !(1..=32).contains(&readers) {
            return Err(RuleRefusal::OutOfLimits);
        }
        Ok(Draft {
            rule,
            replicas,
            readers,
            start,
        })
    }
}
