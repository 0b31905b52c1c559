ghost use Rattle.reading.specs.Examples.{Examples};

/// Lines that are taken and lines that are refused, each with its answer, worked out from the bytes on.
pub fn worked_examples()
    ensures { Examples }
{}
