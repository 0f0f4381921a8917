ghost use Rattle.std.specs.Prelude.{◌≡◌};
ghost use Rattle.figure.specs.Faults.{fault_number, fault_field};

/// Why the fields of a figure are refused. Fields count from 0 at the figure's first.
#[derive(Clone, Copy, PartialEq, Eq, Debug)]
pub enum FigureFault {
    /// 13: the field is none of the words that may stand there. It is 0, an order's first word, or 2, an arm.
    UnknownWord { field: u8 },
    /// 15: the field is no number, or one outside its range. It is 0, a level, or 1, a minute, a depth or a section.
    BadNumber { field: u8 },
}

impl FigureFault {
    /// The number by which the fault is known, 13 or 15.
    // A match: the variants carry a field, so they have no numbers of their own.
    pub fn number(self) -> u8
        ensures { result ≡ fault_number self }
    {
        match self {
            FigureFault::UnknownWord { .. } => 13,
            FigureFault::BadNumber { .. } => 15,
        }
    }

    /// The field found wrong, 0 to 2.
    pub fn field(self) -> u8
        ensures { result ≡ fault_field self }
    {
        match self {
            FigureFault::UnknownWord { field } | FigureFault::BadNumber { field } => field,
        }
    }
}
