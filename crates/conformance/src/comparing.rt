ghost use Rattle.std.specs.Prelude.{◌≡◌, ◌≤◌, ◌==◌, count_by, is_some, length, IfOk};
ghost use Rattle.player.specs.Playing.{played};
ghost use Rattle.conformance.specs.Comparing.{line_of_difference, shared_len, Compared};

use player::play;
use std::alloc::{AllocError, Global};

/// Plays a script. The number of the first line in which its answers are not the stored ones, if there is one.
pub fn compare(heap: Global, script: &[u8], stored: &[u8]) -> Result<Option<usize>, AllocError>
    ensures { IfOk result (Compared (played script.now) stored.now) }
{
    let answers = play(heap, script)?;
    Ok(first_difference(answers.as_slice(), stored))
}

/// How many of the scripts differ.
pub fn differing(differences: &[Option<usize>]) -> usize
    ensures { result ≡ count_by is_some differences.now }
{
    differences.iter().filter(|line| line.is_some()).count()
}

// The number of the first line in which two texts differ, counted from 1. None where they are the same.
fn first_difference(one: &[u8], other: &[u8]) -> Option<usize>
    ensures { Compared one.now other.now result }
{
    if one == other {
        return None;
    }
    Some(1 + line_ends(&one[..shared(one, other)]))
}

// How many bytes they share from the front on.
fn shared(one: &[u8], other: &[u8]) -> usize
    ensures bytes { result ≡ shared_len one.now other.now }
    ensures fit { result ≤ length one.now }
{
    one.iter()
        .zip(other)
        .take_while(|(a, b)| **a == **b)
        .count()
}

fn line_ends(text: &[u8]) -> usize
    ensures { result ≡ count_by (λ b. b == 10) text.now }
{
    text.iter().filter(|b| **b == b'\n').count()
}
