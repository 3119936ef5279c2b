// Values that nothing in a program gives.

ghost use Rattle.std.specs.Prelude.{◌≡◌};
ghost use Rattle.aud_meaning.specs.Evaluation.{nearest_zero};

use aud_text::int32::Int32;
use aud_typed::program::Subtype;

/// What elements of arrays, and formals of mode out, hold at first (profile choice of the value).
pub fn nearest_zero(subtype: Subtype) -> Int32
    ensures { result ≡ nearest_zero subtype }
{
    match subtype {
        Subtype::Positive => Int32::new(1),
        Subtype::Integer | Subtype::Natural | Subtype::Boolean => Int32::new(0),
    }
}
