ghost use Rattle.std.specs.Prelude.{◌≡◌};
ghost use Rattle.player.specs.declared.fault.PlayFault.TheVariants.{Play as OfPlay};

use std::io;

/// Why a script that is to be read was not played to its end.
#[derive(Debug, Drop)]
pub enum PlayFault {
    /// It could not be read.
    Read(io::Error),
    /// There was no memory for the register, or an answer could not be written.
    Play(io::Error),
}

impl From<io::Error> for PlayFault {
    ghost from_gives = { λ e r. r ≡ OfPlay e };

    fn from(e: io::Error) -> PlayFault {
        PlayFault::Play(e)
    }
}
