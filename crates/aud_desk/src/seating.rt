// The seats of a desk.

ghost use Rattle.std.specs.Prelude.{◌≡◌, List, []};
ghost use Rattle.aud_text.specs.declared.limits.Limits.{Limits};
ghost use Rattle.aud_hall.specs.Halls.{limits_of};

use aud_hall::hall::Hall;
use std::marker::{Brand, PhantomData};

/// Stands for the limits of a desk's seats, in the order of their numbers. Nothing changes them, so they are known of the hall
/// whenever its lock is taken. Whoever makes a desk picks them, by `Brand`.
pub trait Seating {
    ghost limits: { List Limits };
}

// Never seen: each call of a function over `Brand` picks them.
impl Seating for Brand {
    ghost limits = { [] };
}

/// A hall whose seats have these limits.
#[derive(Drop)]
pub(crate) struct Seated<D: Seating> {
    pub(crate) hall: Hall,
    pub(crate) of: PhantomData<D>,
    ghost limits: { limits_of hall ≡ D.limits },
}
