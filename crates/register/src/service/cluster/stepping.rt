ghost use Rattle.register.specs.Clusters.{Steps};

use super::Cluster;
use model::{Call, Refusal, Reply};
use quorum::QuorumSystem;
use steps::step_queued;

impl<R: QuorumSystem, F: Copy> Cluster<R, F> {
    /// Does any of the six calls, and answers or declines as `Register` does. Its tables are its own, so none is declined with
    /// `TableLength` (3) or `Unsound` (4). A declined call alters nothing.
    pub fn call(&mut self, call: Call<F>) -> Result<Reply<F>, Refusal>
        ensures { Steps R.QuorumSystem call self.old result self.new }
    {
        let Cluster { register, tables } = self;
        step_queued(
            &register.rule,
            register.start,
            &mut register.numbers,
            &mut tables.replicas,
            &mut tables.readers,
            &mut tables.marks,
            &mut tables.queue,
            &mut tables.head,
            &mut tables.journal,
            call,
        )
    }
}
