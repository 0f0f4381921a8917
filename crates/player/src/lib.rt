//! Plays scripts: a `Session` answers them line by line, `play` and `play_through` whole. What is answered is for every input
//! exactly what is defined for it, and the claims stand on the run of its calls.
#![tactic(auto)]

mod fault;
mod playing;
mod printing;
mod session;
mod setting_up;
mod turn;

pub use fault::PlayFault;
pub use playing::{MOST_BYTES, play, play_through, play_to};
pub use printing::MOST_ANSWER_BYTES;
pub use session::{Opening, Session};
pub use setting_up::{JOURNAL_ROOM, MESSAGE_ROOM};
