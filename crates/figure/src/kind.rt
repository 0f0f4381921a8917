ghost use Rattle.std.specs.Prelude.{◌≡◌, ℕ, ◌+◌, ◌≤◌, List, length, Ok as Fine, Result as Outcome};
ghost use Rattle.figure.specs.declared.fault.FigureFault.{FigureFault as Fault};
ghost use Rattle.text.specs.Cursors.{ahead};
ghost use Rattle.text.specs.Fields.{fields};
ghost use Rattle.text.specs.Printing.{Printed};
ghost use Rattle.figure.specs.Room.{figure_room};

use crate::fault::FigureFault;
use text::FieldCursor;

/// A kind of figure: its word, the figure it starts with, and how its figures are read and printed.
///
/// The ghost members are the meaning of a kind, so that what reads or prints figures is proved once for every kind.
pub trait FigureKind: Copy {
    // the word that names the kind
    ghost named: { List ℕ };

    // the figure before the first write
    ghost starting: { Self };

    // how many fields a figure must have, by those of its fields that fix this
    ghost wanted: { List (List ℕ) → Outcome ℕ Fault };

    // the figure that fields say, where a missing field reads as an empty one
    ghost reading: { List (List ℕ) → Outcome Self Fault };

    // a figure as it is printed
    ghost shown: { Self → List ℕ };

    /// The word that names the kind.
    // A function, and no constant: the ghost member of a constant says where the text lies, too, which no kind can say.
    fn word<'a>() -> &'a str
        ensures { result.now ≡ named };

    /// The figure before the first write.
    // A function, and no constant: the check does not find the proof of a constant in which values with a ghost field
    // stand. And no `Default`, which promises a predicate: here it is the ghost member itself.
    fn start() -> Self
        ensures { result ≡ starting };

    /// How many fields the figure must have, or the fault in a field that fixes this. Whoever reads a figure compares
    /// this with `FieldCursor::count` before `read`.
    fn word_count(cursor: &FieldCursor<'_>) -> Result<usize, FigureFault>
        ensures { result ≡ wanted (ahead cursor.now) };

    /// The figure that the fields to come say; a missing field reads as an empty one.
    fn read(cursor: FieldCursor<'_>) -> Result<Self, FigureFault>
        ensures { result ≡ reading (ahead cursor.entry) };

    // Into the lent buffer, and so by no `Display`.
    /// Writes the figure at a place, and gives the place after it. There has to be room: a printer of a whole line
    /// tests its buffer once, and no figure takes more than 32 bytes.
    fn print(self, buffer: &mut [u8], at: usize) -> usize
        requires { at + length (shown self) ≤ length buffer.old }
        ensures { Printed buffer.old at (shown self) buffer.new result };

    // a line has room for every figure
    ghost short: { (f : Self) → length (shown f) ≤ figure_room };

    // what is printed of a figure has as many fields as it must have
    ghost counts_back: { (f : Self) → wanted (fields (shown f)) ≡ Fine (length (fields (shown f))) };

    // and reads as that figure
    ghost reads_back: { (f : Self) → reading (fields (shown f)) ≡ Fine f };
}
