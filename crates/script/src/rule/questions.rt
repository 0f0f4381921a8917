ghost use Rattle.script.specs.Rules.{meaning_of};

use super::ScriptRule;
use quorum::QuorumSystem;

// The rules that a script can name are these four, so they are an enum. One match for the three would have to hand out the rule as a
// `dyn QuorumSystem` made here, which the gate refuses.
impl QuorumSystem for ScriptRule {
    ghost size = { λ s. (meaning_of s).size };

    ghost round = { λ s. (meaning_of s).round };

    ghost hold = { λ s. (meaning_of s).hold };

    fn size(&self) -> u32 {
        match self {
            ScriptRule::Count(rule) => rule.size(),
            ScriptRule::Grid(rule) => rule.size(),
            ScriptRule::Lead(rule) => rule.size(),
            ScriptRule::Groups(rule) => rule.size(),
        }
    }

    fn is_round(&self, members: u32) -> bool {
        match self {
            ScriptRule::Count(rule) => rule.is_round(members),
            ScriptRule::Grid(rule) => rule.is_round(members),
            ScriptRule::Lead(rule) => rule.is_round(members),
            ScriptRule::Groups(rule) => rule.is_round(members),
        }
    }

    fn is_hold(&self, members: u32) -> bool {
        match self {
            ScriptRule::Count(rule) => rule.is_hold(members),
            ScriptRule::Grid(rule) => rule.is_hold(members),
            ScriptRule::Lead(rule) => rule.is_hold(members),
            ScriptRule::Groups(rule) => rule.is_hold(members),
        }
    }
}
