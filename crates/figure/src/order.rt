ghost use Rattle.std.specs.Prelude.{◌≡◌, ◌+◌, ◌≤◌, length, Some as Just, codes};
ghost use Rattle.figure.specs.declared.order.DigOrder.TheVariants.{Hold as HoldOrder};
ghost use Rattle.figure.specs.Limits.{up_to};
ghost use Rattle.figure.specs.Orders.{arm_of, verb_of, verb_fields, dig_from, shift_from};
ghost use Rattle.figure.specs.Orders.{order_wanted, order_reading, arm_shown, dig_shown, shift_shown, order_shown};
ghost use Rattle.text.specs.Printing.{Printed};
ghost use Rattle.figure.specs.OrderLaws.{order_short, order_counts_back, order_reads_back};

use crate::fault::FigureFault;
use crate::kind::FigureKind;
use crate::limits::{Depth, Section};
use text::{FieldCursor, put_bytes, put_number};

/// The arm that digs.
#[derive(Clone, Copy, PartialEq, Eq, Debug)]
pub enum Arm {
    Port,
    Starboard,
    Both,
}

/// What the dredger is to do.
#[derive(Clone, Copy, PartialEq, Eq, Debug)]
pub enum DigOrder {
    /// Hold the place.
    Hold,
    /// Dig to a depth with an arm.
    Dig { depth: Depth, arm: Arm },
    /// Shift to a section.
    Shift { section: Section },
}

// The first word of an order.
#[derive(Clone, Copy)]
enum Verb {
    Hold,
    Dig,
    Shift,
}

impl DigOrder {
    /// The order to dig to a depth in mm, 0 to 60,000, with an arm.
    pub fn dig(depth: u32, arm: Arm) -> Result<DigOrder, FigureFault>
        ensures { result ≡ dig_from (up_to 60000 depth) (Just arm) }
    {
        DigOrder::join_dig(Depth::new(depth), Some(arm))
    }

    /// The order to shift to a section, 0 to 9,999.
    pub fn shift(section: u32) -> Result<DigOrder, FigureFault>
        ensures { result ≡ shift_from (up_to 9999 section) }
    {
        DigOrder::join_shift(Section::new(section))
    }

    // The order to dig, or a fault for the first part that is missing.
    fn join_dig(depth: Option<Depth>, arm: Option<Arm>) -> Result<DigOrder, FigureFault>
        ensures { result ≡ dig_from depth arm }
    {
        let depth = depth.ok_or(FigureFault::BadNumber { field: 1 })?;
        let arm = arm.ok_or(FigureFault::UnknownWord { field: 2 })?;
        Ok(DigOrder::Dig { depth, arm })
    }

    // The order to shift, or a fault for a section that is missing.
    fn join_shift(section: Option<Section>) -> Result<DigOrder, FigureFault>
        ensures { result ≡ shift_from section }
    {
        let section = section.ok_or(FigureFault::BadNumber { field: 1 })?;
        Ok(DigOrder::Shift { section })
    }
}

impl Arm {
    // The arm that a word names. An `Option`, and no `TryFrom`: which field is at fault is the caller's to say.
    #[tactic(auto, unfolding(crate::specs::Orders::arm_of))]
    fn named(word: &[u8]) -> Option<Arm>
        ensures { result ≡ arm_of word.now }
    {
        match word {
            b"port" => Some(Arm::Port),
            b"starboard" => Some(Arm::Starboard),
            b"both" => Some(Arm::Both),
            _ => None,
        }
    }

    // The word for the arm, for the lent buffer: so bytes, and no `Display`.
    fn word(self) -> &'static [u8]
        ensures { result.now ≡ arm_shown self }
    {
        match self {
            Arm::Port => b"port",
            Arm::Starboard => b"starboard",
            Arm::Both => b"both",
        }
    }
}

impl Verb {
    // The verb that a word names. A `TryFrom` for this one caller would be no plainer.
    #[tactic(auto, unfolding(crate::specs::Orders::verb_of))]
    fn named(word: &[u8]) -> Result<Verb, FigureFault>
        ensures { result ≡ verb_of word.now }
    {
        match word {
            b"hold" => Ok(Verb::Hold),
            b"dig" => Ok(Verb::Dig),
            b"shift" => Ok(Verb::Shift),
            _ => Err(FigureFault::UnknownWord { field: 0 }),
        }
    }

    // How many fields an order with this first word has.
    fn field_count(self) -> usize
        ensures { result ≡ verb_fields self }
    {
        match self {
            Verb::Hold => 1,
            Verb::Dig => 3,
            Verb::Shift => 2,
        }
    }
}

impl FigureKind for DigOrder {
    ghost named = { codes "order" };

    ghost starting = { HoldOrder };

    ghost wanted = { order_wanted };

    ghost reading = { order_reading };

    ghost shown = { order_shown };

    ghost short = { order_short };

    ghost counts_back = { order_counts_back };

    ghost reads_back = { order_reads_back };

    fn word<'a>() -> &'a str {
        "order"
    }

    fn start() -> DigOrder {
        Self::Hold
    }

    fn word_count(cursor: &FieldCursor<'_>) -> Result<usize, FigureFault> {
        if cursor.count() == 0 {
            return Ok(1);
        }
        Ok(Verb::named(cursor.peek())?.field_count())
    }

    fn read(mut cursor: FieldCursor<'_>) -> Result<DigOrder, FigureFault> {
        match Verb::named(cursor.next_field())? {
            Verb::Hold => Ok(DigOrder::Hold),
            Verb::Dig => {
                let depth = Depth::read(cursor.next_field());
                let arm = Arm::named(cursor.next_field());
                DigOrder::join_dig(depth, arm)
            }
            Verb::Shift => DigOrder::join_shift(Section::read(cursor.next_field())),
        }
    }

    fn print(self, buffer: &mut [u8], at: usize) -> usize {
        match self {
            DigOrder::Hold => put_bytes(buffer, at, b"hold"),
            DigOrder::Dig { depth, arm } => put_dig(buffer, at, depth, arm),
            DigOrder::Shift { section } => put_shift(buffer, at, section),
        }
    }
}

// Writes an order to dig at a place, and gives the place after it.
fn put_dig(buffer: &mut [u8], at: usize, depth: Depth, arm: Arm) -> usize
    requires { at + length (dig_shown depth arm) ≤ length buffer.old }
    ensures { Printed buffer.old at (dig_shown depth arm) buffer.new result }
{
    let at = put_bytes(buffer, at, b"dig\t");
    let at = put_number(buffer, at, depth.get());
    let at = put_bytes(buffer, at, b"\t");
    put_bytes(buffer, at, arm.word())
}

// Writes an order to shift at a place, and gives the place after it.
fn put_shift(buffer: &mut [u8], at: usize, section: Section) -> usize
    requires { at + length (shift_shown section) ≤ length buffer.old }
    ensures { Printed buffer.old at (shift_shown section) buffer.new result }
{
    let at = put_bytes(buffer, at, b"shift\t");
    put_number(buffer, at, section.get())
}
