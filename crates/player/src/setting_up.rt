ghost use Rattle.std.specs.Prelude.{◌≡◌, IfOk};
ghost use Rattle.std.specs.Result.{result_err};
ghost use Rattle.model.specs.State.{fresh};
ghost use Rattle.script.specs.Openings.{opening};
ghost use Rattle.script.specs.Rules.{rule_said};
ghost use Rattle.register.specs.Clusters.{cluster_state, cluster_rule};
ghost use Rattle.register.specs.Service.{drafted};

use figure::FigureKind;
use quorum::{QuorumSystem, RuleRefusal};
use register::{Cluster, Draft, UnfoundedCause};
use script::{Header, ScriptRule, make_rule};
use std::alloc::{AllocError, Global};

/// How many messages may wait in a script's register.
pub const MESSAGE_ROOM: usize = 1024;

/// How many lines the journal of a script's register has.
pub const JOURNAL_ROOM: usize = 256;

/// The draft of a register that a header says, or why there is none.
pub fn draft<F: FigureKind>(header: Header) -> Result<Draft<ScriptRule, F>, RuleRefusal>
    ensures declines { result_err result ≡ opening header }
    ensures makes { IfOk result (λ d. (drafted ⟦<ScriptRule as QuorumSystem>⟧ d ≡ rule_said header.rule) × (d.readers ≡ header.readers) × (d.start ≡ F.FigureKind.starting)) }
{
    let rule = make_rule(header.rule)?;
    Draft::new(rule, header.readers, F::start())
}

/// The register of a draft, over tables of its own.
pub fn found<F: FigureKind>(
    heap: Global,
    draft: Draft<ScriptRule, F>,
) -> Result<Cluster<ScriptRule, F>, AllocError>
    ensures { IfOk result (λ x. (cluster_rule ⟦<ScriptRule as QuorumSystem>⟧ x ≡ drafted ⟦<ScriptRule as QuorumSystem>⟧ draft)
        × (cluster_state x ≡ fresh (drafted ⟦<ScriptRule as QuorumSystem>⟧ draft) draft.start draft.readers 1024 256)) }
{
    match draft.found(heap, MESSAGE_ROOM, JOURNAL_ROOM) {
        Ok(cluster) => Ok(cluster),
        Err(unfounded) => match unfounded.cause {
            UnfoundedCause::Memory(e) => Err(e),
            // these rooms are within the limits of every draft
            UnfoundedCause::Refused(_) => unreachable!(),
        },
    }
}
