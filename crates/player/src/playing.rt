ghost use Rattle.std.specs.Prelude.{◌≡◌, ◌+◌, ◌^◌, ◌<◌, length, IfOk, OnOk, IfSome};
ghost use Rattle.std.specs.Io.KnownBytes.{Appends};
ghost use Rattle.text.specs.LineCursors.{lines_ahead};
ghost use Rattle.player.specs.Playing.{played};
ghost use Rattle.player.specs.Sessions.{ahead};
ghost use Rattle.player.specs.Served.{ScriptServed};

use crate::fault::PlayFault;
use crate::printing::{MOST_ANSWER_BYTES, print_line};
use crate::session::Session;
use console::read_at_most;
use figure::Tide;
use script::{ScriptFault, TextFault};
use std::alloc::{AllocError, Global};
use std::io;
use std::io::{Read, Write};
use text::LineCursor;

/// How long a script may be. A longer one is declined whole.
pub const MOST_BYTES: usize = 65536;

/// What is printed for a script, whatever its bytes are.
#[tactic(auto, using(crate::proofs::Serving::script_served))]
pub fn play(heap: Global, script: &[u8]) -> Result<Vec<u8>, AllocError>
    ensures prints { IfOk result (λ out. out.items ≡ played script.now) }
    ensures serves { IfOk result (λ out. ScriptServed script.now out.items) }
{
    let mut out = Vec::new(heap);
    match play_to(heap, script, &mut out) {
        Ok(()) => Ok(out),
        // a `Vec` refuses bytes for want of memory alone
        Err(_) => Err(AllocError),
    }
}

/// Plays the script that there is to read, and writes the answers as it goes.
#[tactic(auto, using(crate::proofs::Serving::served_read))]
pub fn play_through<R: Read + Drop, W: Write>(
    heap: Global,
    from: R,
    to: &mut W,
) -> Result<(), PlayFault>
    ensures writes { OnOk result (IfSome (R.remaining from) (λ bytes.
        Appends (W.contents to.old) (W.contents to.new) (played bytes))) }
    ensures serves { IfSome (R.remaining from) (λ bytes. ScriptServed bytes (played bytes)) }
{
    // one byte more than a script may have: so one that is too long is seen to be
    let script = match read_at_most(heap, from, MOST_BYTES as u64 + 1) {
        Ok(script) => script,
        Err(e) => return Err(PlayFault::Read(e)),
    };
    play_to(heap, script.as_slice(), to)?;
    to.flush()?;
    Ok(())
}

/// Plays a script, whatever its bytes are, and writes the answers as it goes.
#[tactic(auto, using(text::proofs::LineEnds::lines_few, crate::proofs::Serving::served_text))]
pub fn play_to<W: Write>(heap: Global, script: &[u8], to: &mut W) -> io::Result<()>
    ensures writes { OnOk result (Appends (W.contents to.old) (W.contents to.new) (played script.now)) }
    ensures serves { ScriptServed script.now (played script.now) }
{
    let mut buffer = [0; MOST_ANSWER_BYTES];
    if script.len() > MOST_BYTES {
        let fault = ScriptFault::Text(TextFault::NotText);
        let printed = print_line::<Tide>(0, Err(fault), &mut buffer);
        return to.write_all(&buffer[..printed]);
    }
    let mut lines = LineCursor::over(script);
    let Some(first) = lines.next() else {
        return Ok(());
    };
    let opening = Session::open(heap, first, &mut buffer)?;
    to.write_all(&buffer[..opening.printed])?;
    match opening.session {
        Some(session) => play_lines(session, lines, to),
        None => Ok(()),
    }
}

// Plays the lines to come, and writes the answers as it goes. That they can be numbered is asked, since a cursor is over any text.
fn play_lines<W: Write>(mut session: Session, lines: LineCursor<'_>, to: &mut W) -> io::Result<()>
    requires { session.number + length (lines_ahead lines) < 2 ^ 32 }
    ensures { OnOk result (Appends (W.contents to.old) (W.contents to.new) (ahead session (lines_ahead lines.entry))) }
{
    let mut buffer = [0; MOST_ANSWER_BYTES];
    for line in lines {
        let printed = session.line(line, &mut buffer).unwrap();
        to.write_all(&buffer[..printed])?;
    }
    Ok(())
}
