ghost use Rattle.std.specs.Prelude.{◌+◌, ◌≤◌, length, decimal};
ghost use Rattle.std.specs.Fmt.{signed_decimal};
ghost use Rattle.text.specs.Printing.{Printed};

use itoa::Buffer;

// A lent buffer and a place in it, and no `String`: a printer uses no heap. Nor `Write` over the buffer: that answers a
// `Result` for each part and drops what has no room, where here a line's room is tested once and then required.

/// Writes bytes at a place, and gives the place after them.
///
/// There has to be room for them: a printer of a whole line tests its buffer once, and then each part is known to fit.
pub fn put_bytes(buffer: &mut [u8], at: usize, bytes: &[u8]) -> usize
    requires { at + length bytes.now ≤ length buffer.old }
    ensures { Printed buffer.old at bytes.now buffer.new result }
{
    let end = at + bytes.len();
    buffer[at..end].copy_from_slice(bytes);
    end
}

/// Writes a number's decimal digits at a place, and gives the place after them. There has to be room, as for bytes.
pub fn put_number(buffer: &mut [u8], at: usize, n: u32) -> usize
    requires { at + length (decimal n) ≤ length buffer.old }
    ensures { Printed buffer.old at (decimal n) buffer.new result }
{
    put_bytes(buffer, at, Buffer::new().format(n).as_bytes())
}

/// Writes a number, with a minus if it is below 0, at a place, and gives the place after it. There has to be room.
pub fn put_signed(buffer: &mut [u8], at: usize, z: i32) -> usize
    requires { at + length (signed_decimal z) ≤ length buffer.old }
    ensures { Printed buffer.old at (signed_decimal z) buffer.new result }
{
    put_bytes(buffer, at, Buffer::new().format(z).as_bytes())
}
