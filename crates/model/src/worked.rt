ghost use Rattle.model.specs.Worked.{WorkedExamples};

/// The worked examples of the rules and of whole runs stand.
pub fn worked_examples_stand()
    ensures { WorkedExamples }
{}
