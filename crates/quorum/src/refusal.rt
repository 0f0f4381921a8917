ghost use Rattle.std.specs.Prelude.{◌≡◌};
ghost use Rattle.quorum.specs.Refusals.{number as number_of};

/// Why a rule, or the draft of a register, is not made, with the number under which that is reported, 1 or 2.
#[derive(Clone, Copy, PartialEq, Eq, Debug)]
pub enum RuleRefusal {
    /// There are no replicas or over 24, a number of rows, columns, groups or places is 0, the lead is not one of the replicas,
    /// or a draft has no readers or over 32.
    OutOfLimits = 1,
    /// Half of a count's replicas or more are to be allowed to fail.
    TooManyFaults = 2,
}

impl RuleRefusal {
    /// The number under which the refusal is reported, 1 or 2.
    pub fn number(self) -> u8
        ensures { result ≡ number_of self }
    {
        self as u8
    }
}
