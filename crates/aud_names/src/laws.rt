// A law of the definitions.

ghost use Rattle.aud_fault.specs.Least.{LeastIsFirst};

/// What is reported is one of the faults, and none of them comes before it.
pub fn least_is_first()
    ensures { LeastIsFirst }
{}
