ghost use Rattle.std.specs.Prelude.{◌≡◌, ◌++◌, ℕ, List, ◌∷◌, length, IfOk, IsOk, OnErr, IfSome};
ghost use Rattle.text.specs.Printing.{Printed};
ghost use Rattle.script.specs.Openings.{opening_of};
ghost use Rattle.player.specs.Playing.{script_answers};
ghost use Rattle.player.specs.Served.{served_script};
ghost use Rattle.player.specs.Sessions.{first_answer, answers_ahead, Drafts, Founds};

use super::{AnyCluster, AnyDraft, Opening, Session};
use crate::printing::{MOST_ANSWER_BYTES, print_line};
use crate::setting_up::{draft, found};
use figure::Tide;
use model::Reply;
use script::{Kind, ScriptFault, read_header};
use std::alloc::{AllocError, Global};

impl Session {
    /// Opens a session by the first line of a script, and prints its answer at the front of the buffer. Memory is needed only here,
    /// and only where the line is accepted: for the tables of the register. Without it nothing is printed.
    pub fn open(
        heap: Global,
        first: &[u8],
        buffer: &mut [u8; MOST_ANSWER_BYTES],
    ) -> Result<Opening, AllocError>
        ensures answer { IfOk result (λ o. Printed buffer.old 0 (first_answer (opening_of first.now)) buffer.new o.printed) }
        ensures onward { IfOk result (λ o. (lines : List (List ℕ))
            → script_answers (first.now ∷ lines) ≡ first_answer (opening_of first.now) ++ answers_ahead o.session lines) }
        ensures serves { IfOk result (λ o. (lines : List (List ℕ))
            → served_script (first.now ∷ lines) (first_answer (opening_of first.now) ++ answers_ahead o.session lines)) }
        ensures memory { OnErr result (IsOk (opening_of first.now)) }
        ensures kept { OnErr result (buffer.new ≡ buffer.old) }
        ensures number { IfOk result (λ o. IfSome o.session (λ s. s.number ≡ 2)) }
    {
        match draft_of(first) {
            Ok(draft) => {
                let session = session_of(heap, draft)?;
                let printed = print_line::<Tide>(1, Ok(Reply::Done), buffer);
                Ok(Opening {
                    session: Some(session),
                    printed,
                })
            }
            Err(fault) => {
                let printed = print_line::<Tide>(1, Err(fault), buffer);
                Ok(Opening {
                    session: None,
                    printed,
                })
            }
        }
    }
}

// The draft that a first line says, or why it is declined.
fn draft_of(first: &[u8]) -> Result<AnyDraft, ScriptFault>
    ensures { Drafts (opening_of first.now) result }
{
    let header = read_header(first)?;
    Ok(match header.kind {
        Kind::Tide => AnyDraft::Tide(draft(header)?),
        Kind::Order => AnyDraft::Order(draft(header)?),
    })
}

// The session of a draft, before the second line.
fn session_of(heap: Global, draft: AnyDraft) -> Result<Session, AllocError>
    ensures { IfOk result (Founds draft) }
{
    let cluster = match draft {
        AnyDraft::Tide(draft) => AnyCluster::Tide(found(heap, draft)?),
        AnyDraft::Order(draft) => AnyCluster::Order(found(heap, draft)?),
    };
    Ok(Session { cluster, number: 2 })
}
