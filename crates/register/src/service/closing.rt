ghost use Rattle.std.specs.Prelude.{◌≡◌};
ghost use Rattle.register.specs.Service.{closed};

use super::Register;
use crate::tally::Tally;

impl<R: Drop, F: Copy> Register<R, F> {
    /// Uses the register up, and returns its three numbers. It needs no table, alters none, and is never refused.
    pub fn close(self) -> Tally
        ensures { result ≡ closed self }
    {
        Tally {
            lines: self.numbers.lines,
            finished: self.numbers.finished,
            waiting: self.numbers.waiting,
        }
    }
}
