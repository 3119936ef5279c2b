// The names that a declaration hides.

ghost use Rattle.std.specs.Prelude.{◌≡◌, [], ◌∷◌, List, IfOk};
ghost use Rattle.aud_syntax.specs.declared.tree.Ident.{Ident};
ghost use Rattle.aud_names.specs.Names.{is_hidden};
ghost use Rattle.aud_names.specs.Ties.Hidden.{IsSetOf};

use crate::behind::Made;
use aud_syntax::tree::Ident;
use aud_text::name::Name;
use indexmap::IndexSet;
use std::alloc::Global;
use std::marker::Model;

/// The names of a declaration, which are hidden from all visibility until it ends (RM 8.3(16, 17)).
pub struct Hidden<'a> {
    first: &'a Ident,
    others: &'a [Ident],
    // The names of the others. In a set, so that the time for a name does not grow with their number.
    set: IndexSet<&'a Name>,
}

// One call wherever it is dropped.
impl<'a> Drop for Hidden<'a> {
    fn drop(self) {
        let Hidden {
            first: _,
            others: _,
            set,
        } = self;
        drop(set);
    }
}

impl<'a> Model for Hidden<'a> {
    ghost Value = { List Ident };

    ghost view = { λ hidden. hidden.first.now ∷ hidden.others.now };

    ghost invariant = { λ hidden. IsSetOf hidden.others.now hidden.set.keys };
}

impl<'a> Hidden<'a> {
    /// The names of a declaration.
    pub fn new(alloc: Global, first: &'a Ident, others: &'a [Ident]) -> Made<Self>
        ensures { IfOk result (λ hidden. hidden ≡ first.now ∷ others.now) }
    {
        let set = set_of(alloc, others)?;
        Ok(Hidden { first, others, set })
    }

    /// Whether the declaration has this name.
    pub fn has(&self, name: &Name) -> bool
        ensures { result ≡ is_hidden name.now self.now }
    {
        *name == self.first.name || self.set.contains(&name)
    }
}

// The set of the identifiers' names.
fn set_of<'a>(alloc: Global, identifiers: &'a [Ident]) -> Made<IndexSet<&'a Name>>
    ensures { IfOk result (λ names. IsSetOf identifiers.now names.keys) }
{
    let mut names = IndexSet::with_capacity(alloc, identifiers.len())?;
    for ident in identifiers {
        names.insert(&ident.name)?;
    }
    Ok(names)
}
