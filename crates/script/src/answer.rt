ghost use Rattle.std.specs.Prelude.{◌+◌, ◌≤◌, length, IfOk};
ghost use Rattle.text.specs.Printing.{Printed};
ghost use Rattle.script.specs.Faults.{report};
ghost use Rattle.script.specs.Answers.{tabbed, accepted_shown, finished_shown, declined_shown};
ghost use Rattle.script.specs.Answers.{answer_shown, line_shown, LinePrinted};

use crate::fault::ScriptFault;
use figure::FigureKind;
use model::Reply;
use text::{put_bytes, put_number};

/// Prints the answer to a line under the line's number into a buffer, and gives the number of bytes, at most 80. A buffer of
/// less than 80 bytes is refused, and keeps what it held.
// Into a lent buffer, and so by no `Display`: one that is too short is a fault of its own, and no heap is used.
pub fn print_answer<F: FigureKind>(
    number: u32,
    answer: Result<Reply<F>, ScriptFault>,
    buffer: &mut [u8],
) -> Result<usize, ScriptFault>
    ensures prints { LinePrinted buffer.old (line_shown F.FigureKind.shown number answer)
        buffer.new result }
    ensures short { IfOk result (λ n. n ≤ 80) }
{
    if buffer.len() < 80 {
        return Err(ScriptFault::Print);
    }
    let at = put_number(buffer, 0, number);
    let at = put_bytes(buffer, at, b"\t");
    let at = put_answer(buffer, at, answer);
    let at = put_bytes(buffer, at, b"\n");
    Ok(at)
}

// Writes an answer at a place of the lent buffer, and gives the place after it.
//
// The 66 bytes that it may take stand in each of the four contracts here: how wide a number is, is known of a parameter,
// and not of what an arm takes out of the answer. So the five parts of a finish are parameters, too.
fn put_answer<F: FigureKind>(
    buffer: &mut [u8],
    at: usize,
    answer: Result<Reply<F>, ScriptFault>,
) -> usize
    requires { at + 66 ≤ length buffer.old }
    ensures short { result ≤ at + 66 }
    ensures all { Printed buffer.old at (answer_shown F.FigureKind.shown answer)
        buffer.new result }
{
    match answer {
        Ok(Reply::Started(operation)) => put_accepted(buffer, at, operation),
        Ok(Reply::Done) => put_accepted(buffer, at, 0),
        Ok(
            Reply::Finished {
                operation,
                stamp,
                figure,
                sent,
                exchanges,
            },
        ) => put_finished(buffer, at, operation, stamp, figure, sent, exchanges),
        Err(fault) => put_declined(buffer, at, fault),
    }
}

// `as` here and below, which is proved to lose nothing: with `From` the width of what is printed is not known.
fn put_accepted(buffer: &mut [u8], at: usize, operation: u16) -> usize
    requires { at + 66 ≤ length buffer.old }
    ensures short { result ≤ at + 66 }
    ensures all { Printed buffer.old at (accepted_shown operation) buffer.new result }
{
    let at = put_bytes(buffer, at, b"ok");
    put_tabbed(buffer, at, operation as u32)
}

fn put_finished<F: FigureKind>(
    buffer: &mut [u8],
    at: usize,
    operation: u16,
    stamp: u32,
    figure: F,
    sent: u16,
    exchanges: u8,
) -> usize
    requires { at + 66 ≤ length buffer.old }
    ensures short { result ≤ at + 66 }
    ensures all { Printed buffer.old at
        (finished_shown operation stamp (F.FigureKind.shown figure) sent exchanges) buffer.new result }
{
    let at = put_bytes(buffer, at, b"done");
    let at = put_tabbed(buffer, at, operation as u32);
    let at = put_tabbed(buffer, at, stamp);
    let at = put_bytes(buffer, at, b"\t");
    let at = figure.print(buffer, at);
    let at = put_tabbed(buffer, at, sent as u32);
    put_tabbed(buffer, at, exchanges as u32)
}

fn put_declined(buffer: &mut [u8], at: usize, fault: ScriptFault) -> usize
    requires { at + 66 ≤ length buffer.old }
    ensures short { result ≤ at + 66 }
    ensures all { Printed buffer.old at (declined_shown (report fault)) buffer.new result }
{
    let at = put_bytes(buffer, at, b"no\t");
    let at = put_bytes(buffer, at, fault.layer());
    let at = put_tabbed(buffer, at, fault.number() as u32);
    put_tabbed(buffer, at, fault.field())
}

// Writes a tab and a number.
fn put_tabbed(buffer: &mut [u8], at: usize, n: u32) -> usize
    requires { at + length (tabbed n) ≤ length buffer.old }
    ensures { Printed buffer.old at (tabbed n) buffer.new result }
{
    let at = put_bytes(buffer, at, b"\t");
    put_number(buffer, at, n)
}
