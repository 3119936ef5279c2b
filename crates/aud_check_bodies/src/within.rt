// Where statements and declarations stand.

ghost use Rattle.std.specs.Prelude.{◌≡◌, IfOk};
ghost use Rattle.aud_names.specs.Ties.Regions.{plain_regions, plain_place};

use crate::labels::Label;
use aud_names::behind::Made;
use aud_names::names::{NamedParameter, Region, Scope};
use aud_typed::program::Subtype;

/// What a return would leave (RM 6.5).
#[derive(Clone, Copy)]
pub enum Leaves {
    /// A task's body, which is not left by one.
    Task,
    /// A procedure, an entry body or an accept.
    Procedure,
    /// A function, whose value has this subtype, where that is known.
    Function(Option<Subtype>),
}

/// Which call a requeue makes again (RM 9.5.4): that of the innermost accept, or that of an entry body of the object of this
/// number, if it stands in one.
#[derive(Clone, Copy)]
pub enum Requeuing {
    Nowhere,
    Accept,
    Entry(usize),
}

/// What is visible to a statement, the labels of the loops and blocks around it, the innermost one's first,
/// whether a handler is around it, what a return would leave, the entries of the accepts around it, which call a requeue makes
/// again, and the formals of that accept or entry body.
#[derive(Clone, Copy)]
pub struct Within<'s, 'a> {
    pub scope: &'s Scope<'a>,
    pub labels: &'s [Label<'a>],
    pub in_handler: bool,
    pub leaves: Leaves,
    pub accepting: &'s [usize],
    pub requeuing: Requeuing,
    pub profile: &'s [NamedParameter],
}

/// Where a body stands whose region is entered: in these regions, the next one first, with these labels around its
/// statements, maybe in a handler, what a return would leave, in accepts of these entries, which call a requeue makes
/// again, with what formals; and whether it is itself the body of a task.
#[derive(Clone, Copy)]
pub struct Entering<'s, 'a> {
    pub outer: &'s [&'a Region],
    pub labels: &'s [Label<'a>],
    pub in_handler: bool,
    pub leaves: Leaves,
    pub accepting: &'s [usize],
    pub requeuing: Requeuing,
    pub profile: &'s [NamedParameter],
    pub of_task: bool,
}

/// The regions around those of a frame within this one, which lies within those, the next one first. A place is dropped by a
/// call, and not by its parts' drops at each way out.
pub fn regions_within<'a>(innermost: &'a Region, outer: &'a [&'a Region]) -> Made<Vec<&'a Region>>
    ensures { IfOk result (λ regions. plain_regions regions.items
        ≡ (plain_place innermost.now outer.now).regions) }
{
    let scope = Scope::new(innermost, outer);
    let regions = scope.regions();
    drop(scope);
    regions
}
