ghost use Rattle.std.specs.Prelude.{◌≡◌};
ghost use Rattle.register.specs.Service.{closed};

use super::Cluster;
use crate::tally::Tally;

impl<R: Drop, F: Copy> Cluster<R, F> {
    /// Uses the register up, with its tables, and returns its three numbers.
    pub fn close(self) -> Tally
        ensures { result ≡ closed self.register }
    {
        self.register.close()
    }
}
