// Laws of the definitions, each proved as what a function ensures.

ghost use Rattle.aud_syntax.specs.Why.Laws as laws;

/// Programs that differ in places alone have one canonical text.
pub fn without_places()
    ensures { laws.WithoutPlaces }
{}
