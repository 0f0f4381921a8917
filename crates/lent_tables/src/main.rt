//! A register over lent tables, tried by running.
//!
//! The program plays a script on standard input as the bench does, but over tables that it lends to each call. The script that it is
//! run on has every kind of call, of read and of finish; what it must print, the reference made (`reference/answers`). The tests
//! lend tables that are too short, too long, unsound or marked, and look at every record of them.
#![tactic(auto)]

mod playing;
mod service;
#[cfg(test)]
mod tests;

use console::{Failure, read_at_most, report};
use player::MOST_BYTES;
use playing::play;
use std::io::{BufWriter, Write};
use std::process::ExitCode;

fn main(rt: HostRuntime) -> ExitCode {
    report(&rt, "lent_tables", run(&rt))
}

fn run(rt: &HostRuntime) -> Result<(), Failure> {
    let script = read_at_most(rt.alloc(), rt.stdin(), MOST_BYTES as u64)?;
    let mut out = BufWriter::new(rt.alloc(), rt.stdout())?;
    play(rt.alloc(), script.as_slice(), &mut out)?;
    out.flush()?;
    Ok(())
}
