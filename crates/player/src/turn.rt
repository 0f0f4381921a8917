ghost use Rattle.std.specs.Prelude.{◌≡◌};
ghost use Rattle.register.specs.Clusters.{cluster_state, cluster_rule};
ghost use Rattle.player.specs.Playing.{turn};

use figure::FigureKind;
use model::Reply;
use quorum::QuorumSystem;
use register::Cluster;
use script::{ScriptFault, read_call};

/// Plays a call line.
pub fn play_line<R: QuorumSystem, F: FigureKind>(
    cluster: &mut Cluster<R, F>,
    line: &[u8],
) -> Result<Reply<F>, ScriptFault>
    ensures answer { result ≡ (turn F.FigureKind (cluster_rule R.QuorumSystem cluster.old) (cluster_state cluster.old) line.now).answer }
    ensures state { cluster_state cluster.new ≡ (turn F.FigureKind (cluster_rule R.QuorumSystem cluster.old) (cluster_state cluster.old) line.now).next }
    ensures rule { cluster_rule R.QuorumSystem cluster.new ≡ cluster_rule R.QuorumSystem cluster.old }
{
    let call = read_call(line)?;
    Ok(cluster.call(call)?)
}
