//! The conformance run: plays every script of a pack and compares its answers, byte for byte, with the stored ones.
//!
//! A pack is a folder. Its file `index` has a name on each line, and each name the files NAME.script and NAME.answers.
#![tactic(auto)]

mod comparing;
mod pack;

ghost use Rattle.std.specs.Prelude.{◌≡◌, is_ok, IfErr};
ghost use Rattle.console.specs.declared.ending.Failure.TheVariants.{OutputClosed};

use anyhow::anyhow;
use console::{Failure, Request, VERSION, only_argument, report};
use std::env;
use std::process::ExitCode;

const USAGE: &str = "usage: conformance [FOLDER]
Plays each script of the pack in FOLDER, or where it runs, and compares the answers with the stored ones.
docs/CONFORMANCE.md says what a pack is.

  -h, --help       prints this
  -V, --version    prints the version
";

fn main(rt: HostRuntime) -> ExitCode {
    report(&rt, "conformance", run(&rt))
}

fn run(rt: &HostRuntime) -> Result<(), Failure> {
    let words: Vec<String> = env::args(rt)?.collect(rt.alloc())?;
    let word = only_argument(words.as_slice())?.map(|word| word.as_str());
    match Request::of(word)? {
        Request::Help => print!(rt; "{USAGE}")?,
        Request::Version => println!(rt; "conformance {VERSION}")?,
        Request::Work(folder) => return as_verdict(compare_pack(rt, folder.unwrap_or("."))),
    }
    Ok(())
}

// Success is a verdict here: so a reader that has had enough before it is told is a fault.
fn as_verdict(outcome: Result<(), Failure>) -> Result<(), Failure>
    ensures success { is_ok result ≡ is_ok outcome }
    ensures fault { IfErr result (λ e. e ≡ OutputClosed → ⊥) }
{
    match outcome {
        Err(Failure::OutputClosed) => {
            Err(anyhow!("the output was closed before all scripts were compared").into())
        }
        outcome => outcome,
    }
}

// Compares the answers to each script of the pack in this folder with the stored ones.
fn compare_pack(rt: &HostRuntime, folder: &str) -> Result<(), Failure> {
    let index = pack::read_index(rt, folder)?;
    let names: Vec<&str> = index.lines().collect(rt.alloc())?;
    let found = pack::compare_all(rt, folder, names.as_slice())?;
    let differ = comparing::differing(found.as_slice());
    println!(rt; "{} scripts, {differ} differ", names.len())?;
    if differ != 0 {
        return Err(anyhow!("not all answers are the stored ones").into());
    }
    Ok(())
}
