ghost use Rattle.std.specs.Prelude.{◌≡◌, ◌≤◌, length, string_len, vec_len, IfOk};

use crate::comparing::compare;
use anyhow::{Context, anyhow};
use console::{Failure, read_file};
use player::MOST_BYTES;
use std::alloc::AllocError;

// A longer index is refused.
const MOST_INDEX_BYTES: u64 = 65536;

// A script has at most as many lines as bytes, and an answer at most 80 bytes. One byte more shows that a stored file is too long.
const MOST_ANSWER_BYTES: u64 = MOST_BYTES as u64 * 80 + 1;

/// The names of a pack's scripts, one a line. An empty index is refused.
pub fn read_index(rt: &HostRuntime, folder: &str) -> anyhow::Result<String>
    ensures { IfOk result (λ names. (1 ≤ string_len names) × (string_len names ≤ 65536)) }
{
    let name = format!(in rt.alloc(); "{folder}/index")?;
    let bytes = read_file(rt, name.as_str(), MOST_INDEX_BYTES + 1)?;
    if bytes.len() as u64 > MOST_INDEX_BYTES {
        return Err(anyhow!("{name} is longer than 65,536 bytes"));
    }
    if bytes.is_empty() {
        return Err(anyhow!("{name} is empty"));
    }
    String::from_utf8(bytes).context(format_args!("{name} is no text"))
}

/// Plays the scripts of these names, and tells of each whether its answers are the stored ones: what it found of each.
pub fn compare_all(
    rt: &HostRuntime,
    folder: &str,
    names: &[&str],
) -> Result<Vec<Option<usize>>, Failure>
    ensures { IfOk result (λ found. vec_len found ≡ length names.now) }
{
    let mut found = Vec::new(rt.alloc());
    for name in names {
        let difference = compare_stored(rt, folder, name)?;
        match difference {
            None => println!(rt; "agrees {name}")?,
            Some(line) => println!(rt; "differs {name} at line {line}")?,
        }
        found.push(difference).map_err(AllocError::from)?;
    }
    Ok(found)
}

// Compares the answers to the script of this name with the stored ones.
fn compare_stored(rt: &HostRuntime, folder: &str, name: &str) -> anyhow::Result<Option<usize>> {
    let script = format!(in rt.alloc(); "{folder}/{name}.script")?;
    let answers = format!(in rt.alloc(); "{folder}/{name}.answers")?;
    // one byte more than a script may have: so one that is too long is seen to be
    let script = read_file(rt, script.as_str(), MOST_BYTES as u64 + 1)?;
    let stored = read_file(rt, answers.as_str(), MOST_ANSWER_BYTES)?;
    Ok(compare(rt.alloc(), script.as_slice(), stored.as_slice())?)
}
