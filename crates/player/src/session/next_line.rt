ghost use Rattle.std.specs.Prelude.{◌≡◌, ◌+◌, ◌++◌, ℕ, List, [], ◌∷◌, MatchOption};
ghost use Rattle.text.specs.Printing.{Printed};
ghost use Rattle.player.specs.Sessions.{ahead};

use super::{AnyCluster, Session};
use crate::printing::{MOST_ANSWER_BYTES, print_line};
use crate::turn::play_line;

impl Session {
    /// Plays the next line, prints its answer at the front of the buffer, and gives the number of bytes. None where the line
    /// would have number 2 ^ 32 - 1, the last that there is: then it is not played, and nothing is altered.
    pub fn line(&mut self, line: &[u8], buffer: &mut [u8; MOST_ANSWER_BYTES]) -> Option<usize>
        ensures answer { MatchOption result ((self.new ≡ self.old) × (buffer.new ≡ buffer.old))
            (λ end. Printed buffer.old 0 (ahead self.old (line.now ∷ [])) buffer.new end) }
        ensures onward { MatchOption result (self.old.number ≡ 4294967295) (λ _. (lines : List (List ℕ))
            → ahead self.old (line.now ∷ lines) ≡ ahead self.old (line.now ∷ []) ++ ahead self.new lines) }
        ensures number { MatchOption result (self.old.number ≡ 4294967295) (λ _. self.new.number ≡ self.old.number + 1) }
    {
        if self.number == u32::MAX {
            return None;
        }
        let number = self.number;
        self.number += 1;
        Some(match &mut self.cluster {
            AnyCluster::Tide(cluster) => print_line(number, play_line(cluster, line), buffer),
            AnyCluster::Order(cluster) => print_line(number, play_line(cluster, line), buffer),
        })
    }
}
