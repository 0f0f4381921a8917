ghost use Rattle.model.specs.Refuted.{Refutable};

/// The claims can fail: histories that no register may have break them. The function's contract is the theorem.
pub fn claims_refutable()
    ensures { Refutable }
{}
