//! The bench: plays a script, from the file that its argument names or from standard input, and prints an answer to each line.
//!
//! What it prints is `player::played` of the script; this program only names what is read and what is written.
#![tactic(auto)]

use anyhow::anyhow;
use console::{Failure, Request, VERSION, only_argument, report};
use player::{PlayFault, play_through};
use std::env;
use std::fs::File;
use std::io::{BufWriter, Write};
use std::process::ExitCode;

const USAGE: &str = "usage: bench [FILE]
Plays the script in FILE, or on standard input where there is no FILE or it is -, and prints an answer to each of its lines.
docs/SCRIPT.md says what a script is and what is answered, docs/BENCH.md how the program ends.

  -h, --help       prints this
  -V, --version    prints the version
";

fn main(rt: HostRuntime) -> ExitCode {
    report(&rt, "bench", run(&rt))
}

fn run(rt: &HostRuntime) -> Result<(), Failure> {
    let words: Vec<String> = env::args(rt)?.collect(rt.alloc())?;
    let word = only_argument(words.as_slice())?.map(|word| word.as_str());
    match Request::of(word)? {
        Request::Help => print!(rt; "{USAGE}")?,
        Request::Version => println!(rt; "bench {VERSION}")?,
        Request::Work(name) => play(rt, name)?,
    }
    Ok(())
}

// Plays the script in the file of this name, or on standard input. The answers leave the buffer when it is full and at the end.
fn play(rt: &HostRuntime, name: Option<&str>) -> Result<(), Failure> {
    let mut out = BufWriter::new(rt.alloc(), rt.stdout())?;
    let played = match name {
        Some(name) => play_file(rt, name, &mut out),
        None => play_through(rt.alloc(), rt.stdin(), &mut out),
    };
    match played {
        Ok(()) => Ok(()),
        Err(PlayFault::Read(e)) => {
            let name = name.unwrap_or("standard input");
            Err(anyhow!(format!(in rt.alloc(); "cannot read {name}: {e}")?).into())
        }
        Err(PlayFault::Play(e)) => Err(e.into()),
    }
}

fn play_file<W: Write>(rt: &HostRuntime, name: &str, out: &mut W) -> Result<(), PlayFault> {
    match File::open(rt, name) {
        Ok(file) => play_through(rt.alloc(), file, out),
        Err(e) => Err(PlayFault::Read(e)),
    }
}
