ghost use Rattle.std.specs.Prelude.{◌≡◌, IfOk};
ghost use Rattle.std.specs.Result.{result_err};
ghost use Rattle.quorum.specs.Laws.{Lawful};
ghost use Rattle.script.specs.Openings.{rule_refusal};
ghost use Rattle.script.specs.Rules.{meaning_of, rule_said};

use crate::header::RuleText;
use crate::rule::ScriptRule;
use quorum::{Count, Grid, Groups, Lead, RuleRefusal};

/// Makes the rule that a first line says, those below it first. It is lawful.
pub fn make_rule(text: RuleText) -> Result<ScriptRule, RuleRefusal>
    ensures declines { result_err result ≡ rule_refusal text }
    ensures makes { IfOk result (λ rule. (meaning_of rule ≡ rule_said text) × Lawful (rule_said text)) }
{
    match text {
        RuleText::Count { size, faults } => Ok(ScriptRule::Count(Count::new(size, faults)?)),
        RuleText::Grid { rows, columns } => Ok(ScriptRule::Grid(Grid::new(rows, columns)?)),
        RuleText::Lead { lead, size, faults } => {
            let below = Count::new(size, faults)?;
            Ok(ScriptRule::Lead(Lead::new(below, lead)?))
        }
        RuleText::Groups {
            groups,
            group_faults,
            places,
            place_faults,
        } => {
            let outer = Count::new(groups, group_faults)?;
            let inner = Count::new(places, place_faults)?;
            Ok(ScriptRule::Groups(Groups::new(outer, inner)?))
        }
    }
}
