ghost use Rattle.std.specs.Prelude.{◌≡◌};
ghost use Rattle.text.specs.Cursors.{ahead};
ghost use Rattle.text.specs.Fields.{fields};
ghost use Rattle.script.specs.Calls.{figure_in, read_kind, read_in, only_number, party_in};
ghost use Rattle.script.specs.Calls.{lettered_call, call_in, call_of};

use crate::fault::TextFault;
use crate::words::number_in;
use figure::FigureKind;
use model::{Call, Party, ReadKind};
use text::{FieldCursor, is_text};

/// The call that a line says: a letter, a tab, and what the letter asks for.
pub fn read_call<F: FigureKind>(line: &[u8]) -> Result<Call<F>, TextFault>
    ensures { result ≡ call_of F.FigureKind line.now }
{
    if !is_text(line) {
        return Err(TextFault::NotText);
    }
    call_in(line)
}

// The call that the fields of a line say. A letter alone is a line with one field.
fn call_in<F: FigureKind>(line: &[u8]) -> Result<Call<F>, TextFault>
    ensures { result ≡ call_in F.FigureKind (fields line.now) }
{
    match line {
        [letter, b'\t', rest @ ..] => lettered_call(char::from(*letter), FieldCursor::over(rest)),
        [letter] => lettered_call(char::from(*letter), FieldCursor::empty()),
        _ => Err(TextFault::UnknownWord { field: 0 }),
    }
}

// The call that a letter and the fields behind it say.
fn lettered_call<F: FigureKind>(letter: char, fields: FieldCursor<'_>) -> Result<Call<F>, TextFault>
    ensures { result ≡ lettered_call F.FigureKind letter (ahead fields.entry) }
{
    match letter {
        'W' => Ok(Call::Write(figure_in(fields)?)),
        'R' => read_in(fields),
        'D' => Ok(Call::Deliver(only_number(fields, 1)?)),
        'X' => Ok(Call::Drop(only_number(fields, 1)?)),
        'A' => Ok(Call::Duplicate(only_number(fields, 1)?)),
        'H' => Ok(Call::Halt(party_in(fields)?)),
        _ => Err(TextFault::UnknownWord { field: 0 }),
    }
}

// The figure that all the fields say.
fn figure_in<F: FigureKind>(fields: FieldCursor<'_>) -> Result<F, TextFault>
    ensures { result ≡ figure_in F.FigureKind (ahead fields.entry) }
{
    let wanted = F::word_count(&fields)?;
    if fields.count() != wanted {
        return Err(TextFault::FieldCount);
    }
    Ok(F::read(fields)?)
}

// A reader and how it reads.
fn read_in<F>(mut fields: FieldCursor<'_>) -> Result<Call<F>, TextFault>
    ensures { result ≡ read_in (ahead fields.entry) }
{
    if fields.count() != 2 {
        return Err(TextFault::FieldCount);
    }
    let reader = number_in(fields.next_field(), 1)?;
    let kind = read_kind(fields.next_field()).ok_or(TextFault::UnknownWord { field: 2 })?;
    Ok(Call::Read(reader, kind))
}

// How a read goes, by its word. An `Option`, and no `TryFrom`: which field is at fault is the caller's to say.
#[tactic(auto, unfolding(crate::specs::Calls::read_kind))]
fn read_kind(word: &[u8]) -> Option<ReadKind>
    ensures { result ≡ read_kind word.now }
{
    match word {
        b"quick" => Some(ReadKind::Quick),
        b"settled" => Some(ReadKind::Settled),
        b"relay" => Some(ReadKind::Relay),
        _ => None,
    }
}

// The number in the one field that is left, which stands in this field of the line.
fn only_number(mut fields: FieldCursor<'_>, field: u8) -> Result<u32, TextFault>
    ensures { result ≡ only_number (ahead fields.entry) field }
{
    if fields.count() != 1 {
        return Err(TextFault::FieldCount);
    }
    number_in(fields.next_field(), field)
}

// The party to halt.
fn party_in(mut fields: FieldCursor<'_>) -> Result<Party, TextFault>
    ensures { result ≡ party_in (ahead fields.entry) }
{
    if fields.count() == 0 {
        return Err(TextFault::FieldCount);
    }
    match fields.next_field() {
        b"cabinet" => Ok(Party::Replica(only_number(fields, 2)?)),
        b"console" => Ok(Party::Reader(only_number(fields, 2)?)),
        b"station" if fields.count() == 0 => Ok(Party::Writer),
        b"station" => Err(TextFault::FieldCount),
        _ => Err(TextFault::UnknownWord { field: 1 }),
    }
}
