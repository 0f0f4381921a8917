ghost use Rattle.std.specs.Prelude.{◌≡◌};
ghost use Rattle.script.specs.declared.fault.TextFault.TheVariants.{Figure as OfFigure};
ghost use Rattle.script.specs.declared.fault.ScriptFault.TheVariants.{Text as OfText, Rule as OfRule, Plant as OfPlant};
ghost use Rattle.script.specs.Faults.{text_report, report};

use figure::FigureFault;
use model::Refusal;
use quorum::RuleRefusal;

/// Why a line is neither a header nor a call. Fields count from 0 at the line's first.
#[derive(Clone, Copy, PartialEq, Eq, Debug)]
pub enum TextFault {
    /// 12: the line is too long, or has a byte that no text has.
    NotText,
    /// 13: the field is none of the words that may stand there. It is 0 to 3: in the first line `plant`, the kind (1) or the
    /// rule (3), in a call line the letter, the party (1) or the way of a read (2).
    UnknownWord { field: u8 },
    /// 14: the line has too few or too many fields.
    FieldCount,
    /// 15: the field is not 1 to 6 digits. In the first line it is 2, the readers, or 4 to 7, the rule's numbers, in a call line
    /// 1, a place or a reader to read, or 2, a party to halt.
    BadNumber { field: u8 },
    /// 13 or 15: the fields of a figure are at fault. Here they count from 1.
    Figure(FigureFault),
}

/// Why a line of a script is declined, with its cause whole: by which layer, and with which numbers.
#[derive(Clone, Copy, PartialEq, Eq, Debug)]
pub enum ScriptFault {
    /// Layer `text`, 12 to 15, or `figure`, 13 or 15: the line is neither a header nor a call.
    Text(TextFault),
    /// Layer `rule`, 1 or 2: the rule, or the draft of a register, is refused.
    Rule(RuleRefusal),
    /// Layer `plant`, 3 to 11: the register declines the call.
    Plant(Refusal),
    /// Layer `print`, 16: the print buffer is shorter than 80 bytes.
    Print,
}

impl From<FigureFault> for TextFault {
    ghost from_gives = { λ e r. r ≡ OfFigure e };

    fn from(e: FigureFault) -> TextFault {
        TextFault::Figure(e)
    }
}

impl From<TextFault> for ScriptFault {
    ghost from_gives = { λ e r. r ≡ OfText e };

    fn from(e: TextFault) -> ScriptFault {
        ScriptFault::Text(e)
    }
}

impl From<RuleRefusal> for ScriptFault {
    ghost from_gives = { λ e r. r ≡ OfRule e };

    fn from(e: RuleRefusal) -> ScriptFault {
        ScriptFault::Rule(e)
    }
}

impl From<Refusal> for ScriptFault {
    ghost from_gives = { λ e r. r ≡ OfPlant e };

    fn from(e: Refusal) -> ScriptFault {
        ScriptFault::Plant(e)
    }
}

impl TextFault {
    /// The number by which the fault is known, 12 to 15.
    // A match: the variants carry what they are of, so they have no numbers of their own.
    pub fn number(self) -> u8
        ensures { result ≡ (text_report self).number }
    {
        match self {
            TextFault::NotText => 12,
            TextFault::UnknownWord { .. } => 13,
            TextFault::FieldCount => 14,
            TextFault::BadNumber { .. } => 15,
            TextFault::Figure(fault) => fault.number(),
        }
    }

    /// The field found wrong, 0 to 7, or 0 where the fault names none. A figure's first field is field 1 of its line.
    // A plain number, 0 where the fault names none, since the line's format prints 0 there.
    pub fn field(self) -> u32
        ensures { result ≡ (text_report self).field }
    {
        match self {
            TextFault::UnknownWord { field } | TextFault::BadNumber { field } => u32::from(field),
            TextFault::Figure(fault) => u32::from(fault.field()) + 1,
            TextFault::NotText | TextFault::FieldCount => 0,
        }
    }
}

impl ScriptFault {
    /// The layer that found the fault, as it is printed.
    // For the lent buffer: so bytes, and no `Display`.
    pub fn layer(self) -> &'static [u8]
        ensures { result.now ≡ (report self).layer }
    {
        match self {
            ScriptFault::Text(TextFault::Figure(_)) => b"figure",
            ScriptFault::Text(_) => b"text",
            ScriptFault::Rule(_) => b"rule",
            ScriptFault::Plant(_) => b"plant",
            ScriptFault::Print => b"print",
        }
    }

    /// The number by which the fault is known, 1 to 16.
    // A match: the variants carry what they are of, so they have no numbers of their own.
    pub fn number(self) -> u8
        ensures { result ≡ (report self).number }
    {
        match self {
            ScriptFault::Text(fault) => fault.number(),
            ScriptFault::Rule(refusal) => refusal.number(),
            ScriptFault::Plant(refusal) => refusal.number(),
            ScriptFault::Print => 16,
        }
    }

    /// The field found wrong, 0 to 7, or 0 where the fault names none.
    // As above: the line's format prints 0 where the fault names none.
    pub fn field(self) -> u32
        ensures { result ≡ (report self).field }
    {
        match self {
            ScriptFault::Text(fault) => fault.field(),
            ScriptFault::Rule(_) | ScriptFault::Plant(_) | ScriptFault::Print => 0,
        }
    }
}
