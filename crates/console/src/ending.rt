ghost use Rattle.std.specs.Prelude.{◌≡◌, ◌↔◌, if◌then◌else◌};
ghost use Rattle.std.specs.IoError.{error_kind};
ghost use Rattle.std.specs.declared.io.ErrorKind.TheVariants.{BrokenPipe};
ghost use Rattle.console.specs.declared.ending.Failure.TheVariants.{OutputClosed, Fault as OfFault};
ghost use Rattle.console.specs.Endings.{ended_well};

use std::alloc::AllocError;
use std::io;
use std::io::ErrorKind;
use std::process::ExitCode;

/// Why a program ends before its work is done.
#[derive(Debug, Drop)]
pub enum Failure {
    /// Whoever reads what it prints has had enough.
    OutputClosed,
    Fault(anyhow::Error),
}

impl From<anyhow::Error> for Failure {
    ghost from_gives = { λ e r. r ≡ OfFault e };

    fn from(e: anyhow::Error) -> Failure {
        Failure::Fault(e)
    }
}

impl From<AllocError> for Failure {
    ghost from_gives = { λ e r. r ≡ OutputClosed → ⊥ };

    fn from(e: AllocError) -> Failure {
        Failure::Fault(e.into())
    }
}

impl From<io::Error> for Failure {
    ghost from_gives = { λ e r. (r ≡ OutputClosed) ↔ (error_kind e ≡ BrokenPipe) };

    fn from(e: io::Error) -> Failure {
        match e.kind() {
            ErrorKind::BrokenPipe => Failure::OutputClosed,
            _ => Failure::Fault(e.into()),
        }
    }
}

/// The status that the program of this name ends with. A fault is told on standard error.
pub fn report(rt: &HostRuntime, program: &str, outcome: Result<(), Failure>) -> ExitCode
    ensures { result ≡ (if ended_well outcome then ExitCode.SUCCESS else ExitCode.FAILURE) }
{
    match outcome {
        Ok(()) | Err(Failure::OutputClosed) => ExitCode::SUCCESS,
        Err(Failure::Fault(fault)) => {
            // Where standard error takes nothing, the status alone tells.
            let _ = eprintln!(rt; "{program}: {fault}");
            ExitCode::FAILURE
        }
    }
}
