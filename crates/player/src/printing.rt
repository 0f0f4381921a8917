ghost use Rattle.text.specs.Printing.{Printed};
ghost use Rattle.script.specs.Answers.{line_shown};

use figure::FigureKind;
use model::Reply;
use script::{ScriptFault, print_answer};

/// How many bytes an answer takes at most.
pub const MOST_ANSWER_BYTES: usize = 80;

/// Prints the answer to a line at the front of a buffer, and gives the number of bytes.
pub fn print_line<F: FigureKind>(
    number: u32,
    answer: Result<Reply<F>, ScriptFault>,
    buffer: &mut [u8; MOST_ANSWER_BYTES],
) -> usize
    ensures { Printed buffer.old 0 (line_shown F.FigureKind.shown number answer) buffer.new result }
{
    // the printer refuses a buffer of less than 80 bytes, and no other
    print_answer(number, answer, buffer).unwrap()
}
