ghost use Rattle.std.specs.Prelude.{◌≡◌, ◌+◌, ◌≤◌, length, codes};
ghost use Rattle.text.specs.Printing.{Printed};
ghost use Rattle.figure.specs.Tides.{tide_from, tide_of, tide_start, tide_wanted, tide_reading};
ghost use Rattle.figure.specs.Tides.{tide_shown, level_minute_shown};
ghost use Rattle.figure.specs.TideLaws.{tide_short, tide_counts_back, tide_reads_back};

use crate::fault::FigureFault;
use crate::kind::FigureKind;
use crate::limits::{Level, Minute};
use text::{FieldCursor, put_bytes, put_number, put_signed};

/// A water level and the minute of the day at which it was read.
#[derive(Clone, Copy, PartialEq, Eq, Debug)]
pub struct Tide {
    pub level: Level,
    pub minute: Minute,
}

impl Tide {
    /// The tide of a level in mm, -20,000 to 20,000, and a minute, 0 to 1,439.
    pub fn new(level: i32, minute: u32) -> Result<Tide, FigureFault>
        ensures { result ≡ tide_of level minute }
    {
        Tide::join(Level::new(level), Minute::new(minute))
    }

    // The tide, or a fault for the first part that is missing.
    fn join(level: Option<Level>, minute: Option<Minute>) -> Result<Tide, FigureFault>
        ensures { result ≡ tide_from level minute }
    {
        let level = level.ok_or(FigureFault::BadNumber { field: 0 })?;
        let minute = minute.ok_or(FigureFault::BadNumber { field: 1 })?;
        Ok(Tide { level, minute })
    }
}

impl FigureKind for Tide {
    ghost named = { codes "tide" };

    ghost starting = { tide_start };

    ghost wanted = { tide_wanted };

    ghost reading = { tide_reading };

    ghost shown = { tide_shown };

    ghost short = { tide_short };

    ghost counts_back = { tide_counts_back };

    ghost reads_back = { tide_reads_back };

    fn word<'a>() -> &'a str {
        "tide"
    }

    fn start() -> Tide {
        Tide {
            level: Level::default(),
            minute: Minute::default(),
        }
    }

    fn word_count(_cursor: &FieldCursor<'_>) -> Result<usize, FigureFault> {
        Ok(2)
    }

    fn read(mut cursor: FieldCursor<'_>) -> Result<Tide, FigureFault> {
        let level = Level::read(cursor.next_field());
        let minute = Minute::read(cursor.next_field());
        Tide::join(level, minute)
    }

    fn print(self, buffer: &mut [u8], at: usize) -> usize {
        put_tide(buffer, at, self.level, self.minute)
    }
}

// Writes a level and a minute at a place, and gives the place after them.
fn put_tide(buffer: &mut [u8], at: usize, level: Level, minute: Minute) -> usize
    requires { at + length (level_minute_shown level minute) ≤ length buffer.old }
    ensures { Printed buffer.old at (level_minute_shown level minute) buffer.new result }
{
    let at = put_signed(buffer, at, level.mm());
    let at = put_bytes(buffer, at, b"\t");
    put_number(buffer, at, minute.get())
}
