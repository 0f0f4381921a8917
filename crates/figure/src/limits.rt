ghost use Rattle.std.specs.Prelude.{◌≤◌, unsigned_abs};

/// A whole number from 0 to `MAX`.
#[derive(Clone, Copy, PartialEq, Eq, Debug)]
pub struct UpTo<const MAX: u32> {
    value: u32,
    ghost ok: { value ≤ MAX },
}

/// A water level in mm, from 20,000 below the datum to 20,000 above it.
#[derive(Clone, Copy, PartialEq, Eq, Debug)]
pub struct Level {
    mm: i32,
    ghost ok: { unsigned_abs mm ≤ 20000 },
}

/// A minute of the day.
pub type Minute = UpTo<1439>;

/// A digging depth in mm.
pub type Depth = UpTo<60000>;

/// The number of a section of the channel.
pub type Section = UpTo<9999>;

// The functions stand apart, since a struct with an invariant cannot share a file with the definitions that name it.
mod making;
