// Sums of places and lengths.

ghost use Rattle.std.specs.Prelude.{◌≡◌, ◌+◌, IfOk};

use std::alloc::AllocError;

/// A sum of lengths.
///
/// # Errors
///
/// Memory is refused where it passes the type, since no memory holds such code.
pub fn sum(a: usize, b: usize) -> Result<usize, AllocError>
    ensures { IfOk result (λ n. n ≡ a + b) }
{
    a.checked_add(b).ok_or(AllocError)
}
