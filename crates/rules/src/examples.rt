ghost use Rattle.rules.specs.Examples.{Examples};

/// Lines that are taken and refused, strikes and numberings, each with its answer, worked out from the
/// bytes on.
pub fn worked_examples()
    ensures { Examples }
{}
