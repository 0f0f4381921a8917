ghost use Rattle.std.specs.Prelude.{◌≡◌};
ghost use Rattle.std.specs.Iterator.{YieldsFirstRef, item_count};
ghost use Rattle.text.specs.Lines.{lines, plain, is_text};
ghost use Rattle.text.specs.LineCursors.{lines_ahead};

use crate::cuts::cut_at;

/// The lines of a text, one by one. Byte 10 ends a line; the last may lack it.
#[derive(Drop)]
pub struct LineCursor<'a> {
    rest: &'a [u8],
}

impl<'a> LineCursor<'a> {
    /// The lines of a text; an empty text has none.
    pub fn over(text: &'a [u8]) -> LineCursor<'a>
        ensures { lines_ahead result ≡ lines text.now }
    {
        LineCursor { rest: text }
    }
}

impl<'a> Iterator for LineCursor<'a> {
    type Item = &'a [u8];

    ghost next_gives = { YieldsFirstRef lines_ahead };

    ghost remaining = { item_count lines_ahead };

    /// The next line without its end, if there is one.
    #[tactic(auto, using(crate::proofs::LineEnds::cut_lines))]
    fn next(&mut self) -> Option<&'a [u8]> {
        let text = self.rest;
        if text.is_empty() {
            return None;
        }
        let (line, rest) = cut_at(text, b'\n');
        self.rest = rest.unwrap_or(b"");
        Some(line)
    }
}

/// Whether a line is text: at most 200 bytes, each a tab or one that prints.
#[tactic(auto, unfolding(crate::specs::Lines::is_text))]
pub fn is_text(line: &[u8]) -> bool
    ensures { result ≡ is_text line.now }
{
    line.len() <= 200 && line.iter().all(|b| is_plain(*b))
}

// A tab, or a byte that prints.
fn is_plain(byte: u8) -> bool
    ensures { result ≡ plain byte }
{
    matches!(byte, b'\t' | b' '..=b'~')
}
