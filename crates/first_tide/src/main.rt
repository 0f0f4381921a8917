//! A first tide: the register used directly, from its draft to its tally.
//!
//! Three replicas, of which one may fail, keep what the writer writes, and one reader reads it twice. The first read ends after one
//! round, since enough of those that answered hold the newest tide. Before the second, a newer tide has reached one replica alone:
//! so the reader places it in enough of them first, and ends after its second round. A round is two exchanges, there and back.
#![tactic(auto)]

mod memory;
mod service;

use console::{Failure, report};
use figure::{FigureKind, Tide};
use memory::Memory;
use model::{Call, Refusal, Reply};
use quorum::Count;
use register::Draft;
use service::Service;
use std::io;
use std::process::ExitCode;

fn main(rt: HostRuntime) -> ExitCode {
    report(&rt, "first_tide", run(&rt))
}

// No `unwrap` here can fail: the check proves it, from what the makers of rules, drafts, registers and tides promise.
#[tactic(auto, unfolding(text::specs::Partial::if_within))]
fn run(rt: &HostRuntime) -> Result<(), Failure> {
    let draft = Draft::new(Count::new(3, 1).unwrap(), 1, Tide::start()).unwrap();
    println!(rt; "drafted: 3 replicas, of which 1 may fail, and 1 reader")?;
    let mut memory = Memory::blank();
    let register = draft
        .commission(
            &mut memory.replicas,
            &mut memory.readers,
            &mut memory.marks,
            &memory.messages,
            &memory.journal,
        )
        .unwrap();
    println!(rt; "commissioned: room for 16 messages and 8 operations")?;
    let mut service = Service { register, memory };

    tell(
        rt,
        "write of 1250 mm",
        service.write(Tide::new(1250, 480).unwrap()),
    )?;
    deliver(rt, &mut service, 6)?;
    tell(rt, "quick read", service.read())?;
    deliver(rt, &mut service, 6)?;

    tell(
        rt,
        "write of 1310 mm",
        service.write(Tide::new(1310, 490).unwrap()),
    )?;
    deliver(rt, &mut service, 1)?;
    tell(rt, "lose", service.lose())?;
    tell(rt, "lose", service.lose())?;
    tell(rt, "quick read", service.read())?;
    // the rest as one list of calls
    let answers = service.run(rt.alloc(), &[Call::Deliver(0); 13])?;
    for answer in answers.iter() {
        tell(rt, "deliver", *answer)?;
    }

    let tally = service.close();
    println!(rt;
        "closed: {} operations, {} of them finished, {} messages waiting",
        tally.lines, tally.finished, tally.waiting
    )?;
    Ok(())
}

// Delivers so many messages, and prints what each came to.
fn deliver(rt: &HostRuntime, service: &mut Service, count: u32) -> io::Result<()> {
    for _ in 0..count {
        tell(rt, "deliver", service.deliver())?;
    }
    Ok(())
}

// Prints a call and its answer.
fn tell(rt: &HostRuntime, call: &str, answer: Result<Reply<Tide>, Refusal>) -> io::Result<()> {
    match answer {
        Ok(Reply::Started(operation)) => println!(rt; "{call}: operation {operation} started"),
        Ok(
            Reply::Finished {
                operation,
                figure,
                sent,
                exchanges,
                ..
            },
        ) => println!(rt;
            "{call}: operation {operation} finished with {} mm at minute {}, after {exchanges} exchanges and {sent} messages",
            figure.level.mm(),
            figure.minute.get()
        ),
        Ok(Reply::Done) => println!(rt; "{call}: done"),
        Err(refusal) => println!(rt; "{call}: declined with {}", refusal.number()),
    }
}
