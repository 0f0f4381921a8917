ghost use Rattle.std.specs.Prelude.{◌≡◌};
ghost use Rattle.script.specs.Words.{number_in};

use crate::fault::TextFault;
use text::number;

/// The number that a word spells, which stands in this field of its line.
pub fn number_in(word: &[u8], field: u8) -> Result<u32, TextFault>
    ensures { result ≡ number_in word.now field }
{
    number(word).ok_or(TextFault::BadNumber { field })
}
