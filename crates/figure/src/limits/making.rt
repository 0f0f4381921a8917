ghost use Rattle.std.specs.Prelude.{◌≡◌, ◌≤◌, Some as Just};
ghost use Rattle.figure.specs.Limits.{up_to_zero, up_to, up_to_read, level_zero, level_of, level_read};

use super::{Level, UpTo};
use text::{number, signed_number};

// The most that a level is above or below the datum, in mm.
const FARTHEST: u32 = 20_000;

// Written by hand, since a struct with a ghost field derives no `Default`.
impl<const MAX: u32> Default for UpTo<MAX> {
    ghost is_default = { λ n. n ≡ up_to_zero MAX };

    /// The number 0, which is within every limit.
    fn default() -> UpTo<MAX> {
        UpTo { value: 0 }
    }
}

impl<const MAX: u32> UpTo<MAX> {
    /// The number itself, if it is within the limit.
    #[tactic(auto, using(crate::specs::Limited::beyond))]
    pub fn new(value: u32) -> Option<UpTo<MAX>>
        ensures { result ≡ up_to MAX value }
    {
        if value > MAX {
            return None;
        }
        Some(UpTo::within(value))
    }

    // The number itself, which is within the limit.
    fn within(value: u32) -> UpTo<MAX>
        requires { value ≤ MAX }
        ensures { Just result ≡ up_to MAX value }
    {
        UpTo { value }
    }

    /// The number that a field spells, if it spells one within the limit.
    pub(crate) fn read(field: &[u8]) -> Option<UpTo<MAX>>
        ensures { result ≡ up_to_read MAX field.now }
    {
        UpTo::new(number(field)?)
    }

    /// The number as a plain one.
    pub fn get(self) -> u32
        ensures { result ≡ self.entry.value }
    {
        self.value
    }
}

impl Default for Level {
    ghost is_default = { λ level. level ≡ level_zero };

    /// The level 0.
    fn default() -> Level {
        Level { mm: 0 }
    }
}

impl Level {
    /// A number of mm as a level, if it is within the range.
    pub fn new(mm: i32) -> Option<Level>
        ensures { result ≡ level_of mm }
    {
        if mm.unsigned_abs() > FARTHEST {
            return None;
        }
        Some(Level { mm })
    }

    /// The level that a field spells, if it spells one within the range.
    // One line here and at `UpTo`, over two readers: a trait for both would be longer.
    pub(crate) fn read(field: &[u8]) -> Option<Level>
        ensures { result ≡ level_read field.now }
    {
        Level::new(signed_number(field)?)
    }

    /// The level in mm.
    pub fn mm(self) -> i32
        ensures { result ≡ self.mm }
    {
        self.mm
    }
}
