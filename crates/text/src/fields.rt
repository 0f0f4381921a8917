ghost use Rattle.std.specs.Prelude.{◌≡◌, [], length, drop};
ghost use Rattle.std.specs.Str.{bytes_eq};
ghost use Rattle.text.specs.Fields.{fields, field_at};
ghost use Rattle.text.specs.Cursors.{ahead};

use crate::cuts::cut_at;

/// The fields of a line, one by one from the left. Tabs part them.
// Not an `Iterator`: a missing field reads as an empty one, so that readers of a line take fields with no test.
#[derive(Drop)]
pub struct FieldCursor<'a> {
    // the fields still to come with the tabs between them; `None` behind the last field
    rest: Option<&'a [u8]>,
}

impl<'a> FieldCursor<'a> {
    /// The fields of a text, of which an empty text has one, an empty field.
    pub fn over(text: &'a [u8]) -> FieldCursor<'a>
        ensures { ahead result ≡ fields text.now }
    {
        FieldCursor { rest: Some(text) }
    }

    /// No field at all.
    pub fn empty() -> FieldCursor<'a>
        ensures { ahead result ≡ [] }
    {
        FieldCursor { rest: None }
    }

    /// How many fields are still to come.
    pub fn count(&self) -> usize
        ensures { result ≡ length (ahead self.now) }
    {
        match self.rest {
            Some(text) => field_count(text),
            None => 0,
        }
    }

    /// The next field, which stays to come; an empty one where none is left.
    #[tactic(auto, using(crate::proofs::Parting::cut_fields))]
    pub fn peek(&self) -> &'a [u8]
        ensures { result.now ≡ field_at (ahead self.now) 0 }
    {
        match self.rest {
            Some(text) => cut_at(text, b'\t').0,
            None => b"",
        }
    }

    /// The next field; an empty one where none is left.
    #[tactic(auto, using(crate::proofs::Parting::cut_fields))]
    pub fn next_field(&mut self) -> &'a [u8]
        ensures field { result.now ≡ field_at (ahead self.old) 0 }
        ensures rest { ahead self.new ≡ drop 1 (ahead self.old) }
    {
        let Some(text) = self.rest else {
            return b"";
        };
        let (field, rest) = cut_at(text, b'\t');
        self.rest = rest;
        field
    }
}

/// Whether a field is a word.
pub fn is_word(field: &[u8], word: &str) -> bool
    ensures { result ≡ bytes_eq field.now word.now }
{
    field == word.as_bytes()
}

// How many fields a text has.
fn field_count(text: &[u8]) -> usize
    ensures { result ≡ length (fields text.now) }
{
    text.iter().filter(|b| **b == b'\t').count() + 1
}
