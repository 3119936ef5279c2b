// The labels of loops and blocks.

ghost use Rattle.std.specs.Prelude.{◌≡◌, ◌∷◌, IfOk};
ghost use Rattle.aud_check_bodies.specs.Labels.{has_label, is_named, exit_loop};
ghost use Rattle.aud_check_bodies.specs.Statements.{begin_at};
ghost use Rattle.aud_check_bodies.specs.Ties.Labels.{plain_label, plain_labels};

use aud_names::behind::Made;
use aud_syntax::tree::Ident;
use aud_text::place::Pos;
use std::alloc::Global;

/// Of a loop or a block: which of them it is, and its label, if it has one.
#[derive(Clone, Copy)]
pub struct Label<'a> {
    pub is_loop: bool,
    pub name: &'a Option<Ident>,
}

fn has_label(name: &Ident, label: &Option<Ident>) -> bool
    ensures { result ≡ has_label name.now label.now }
{
    match label {
        None => false,
        Some(label) => name.name == label.name,
    }
}

// Whether this is what an exit names (RM 5.7(4)).
fn is_named(name: &Option<Ident>, label: Label<'_>) -> bool
    ensures { result ≡ is_named name.now (plain_label label.entry) }
{
    match name {
        None => label.is_loop,
        Some(name) => has_label(name, label.name),
    }
}

/// How many loops further out than the innermost one the loop is that an exit leaves (RM 5.7(4)).
pub fn exit_loop(name: &Option<Ident>, labels: &[Label<'_>]) -> Option<usize>
    ensures { result ≡ exit_loop name.now (plain_labels labels.now) }
{
    let mut further_out = 0;
    for label in labels {
        if is_named(name, *label) {
            return if label.is_loop {
                Some(further_out)
            } else {
                None
            };
        }
        if label.is_loop {
            further_out += 1;
        }
    }
    None
}

/// The labels around the statements of a loop or a block: its own, and those around it.
pub fn with_label<'a>(alloc: Global, label: Label<'a>, labels: &[Label<'a>]) -> Made<Vec<Label<'a>>>
    ensures { IfOk result (λ inner. plain_labels inner.items
        ≡ plain_label label.entry ∷ plain_labels labels.now) }
{
    let mut inner = Vec::with_capacity(alloc, labels.len())?;
    inner.push(label)?;
    inner.extend_from_slice(labels)?;
    Ok(inner)
}

/// Where a loop or a block begins: at its label, if it has one.
pub fn begin_at(label: &Option<Ident>, at: Pos) -> Pos
    ensures { result ≡ begin_at label.now at }
{
    match label {
        None => at,
        Some(label) => label.at,
    }
}
