//! Scripts, each played by a register over lent tables.

use crate::service::{Lengths, Service, Tables};
use anyhow::bail;
use figure::{DigOrder, FigureKind, Tide};
use model::Reply;
use player::{JOURNAL_ROOM, MESSAGE_ROOM, MOST_ANSWER_BYTES};
use quorum::QuorumSystem;
use register::Draft;
use script::{
    Header, Kind, ScriptFault, ScriptRule, make_rule, print_answer, read_call, read_header,
};
use std::alloc::Global;
use std::io::{self, Write};
use text::LineCursor;

/// Plays a script, and writes the answers as it goes. One whose first line is declined is no script to play.
pub(crate) fn play<W: Write>(heap: Global, script: &[u8], to: &mut W) -> anyhow::Result<()> {
    let mut lines = LineCursor::over(script);
    let Some(first) = lines.next() else {
        return Ok(());
    };
    let Ok(header) = read_header(first) else {
        bail!("the first line says no register");
    };
    match header.kind {
        Kind::Tide => play_kind::<Tide, W>(heap, header, lines, to),
        Kind::Order => play_kind::<DigOrder, W>(heap, header, lines, to),
    }
}

// Plays the lines behind a first one that says this.
fn play_kind<F: FigureKind, W: Write>(
    heap: Global,
    header: Header,
    lines: LineCursor<'_>,
    to: &mut W,
) -> anyhow::Result<()> {
    let service = open::<F>(heap, header)?;
    play_lines(service, lines, to)?;
    Ok(())
}

// The register that a first line says, in service.
fn open<F: FigureKind>(heap: Global, header: Header) -> anyhow::Result<Service<ScriptRule, F>> {
    let Ok(rule) = make_rule(header.rule) else {
        bail!("the first line says no rule");
    };
    let lengths = Lengths {
        replicas: rule.size(),
        readers: header.readers,
        messages: MESSAGE_ROOM,
        journal: JOURNAL_ROOM,
    };
    let Ok(draft) = Draft::new(rule, header.readers, F::start()) else {
        bail!("the first line says no draft");
    };
    let tables = Tables::blank(heap, lengths, F::start())?;
    match Service::over(draft, tables) {
        Some(service) => Ok(service),
        None => bail!("the tables have not the lengths of the draft"),
    }
}

// Plays the lines behind the first one, whose answer comes before theirs.
fn play_lines<F: FigureKind, W: Write>(
    mut service: Service<ScriptRule, F>,
    lines: LineCursor<'_>,
    to: &mut W,
) -> io::Result<()> {
    write_answer::<F, W>(1, Ok(Reply::Done), to)?;
    for (number, line) in (2..u32::MAX).zip(lines) {
        let answer = play_line(&mut service, line);
        write_answer(number, answer, to)?;
    }
    Ok(())
}

fn play_line<F: FigureKind>(
    service: &mut Service<ScriptRule, F>,
    line: &[u8],
) -> Result<Reply<F>, ScriptFault> {
    let call = read_call(line)?;
    Ok(service.call(call)?)
}

fn write_answer<F: FigureKind, W: Write>(
    number: u32,
    answer: Result<Reply<F>, ScriptFault>,
    to: &mut W,
) -> io::Result<()> {
    let mut buffer = [0; MOST_ANSWER_BYTES];
    // the printer refuses a buffer of less than 80 bytes, and no other
    let printed = print_answer(number, answer, &mut buffer).unwrap();
    to.write_all(&buffer[..printed])
}
