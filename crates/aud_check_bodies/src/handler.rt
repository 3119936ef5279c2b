// The choices of handlers, and raise statements.

ghost use Rattle.std.specs.Prelude.{◌≡◌, ◌++◌, ◌∷◌, [], IfOk, OnOk};
ghost use Rattle.aud_syntax.specs.Ties.View.{plain_choices, handler_list};
ghost use Rattle.aud_typed.specs.Ties.View.{plain_statement as plain_typed_statement};
ghost use Rattle.aud_fault.specs.Least.{noted};
ghost use Rattle.aud_check_bodies.specs.Handlers.{exception_meant, exception_faults, raise_faults, typed_raise, raised_by, is_chosen, Chosen as Plain, none_chosen, chosen_once, with_exception, name_chosen, name_chosen_faults, names_chosen, names_chosen_faults, choices_faults, chosen_after, all_choices_faults, exceptions_of, choices_of, is_others};
ghost use Rattle.aud_names.specs.Ties.Regions.{names_in};
ghost use Rattle.aud_typing.specs.Ties.Typing.{in_box, Leaves};

use aud_fault::fault::Least;
use aud_names::behind::{Left, Made, add_last, boxed};
use aud_names::names::{Meaning, Scope};
use aud_names::resolution::note_no_value;
use aud_names::rules::{good_choice, name_not_declared, raise_in_handler};
use aud_syntax::tree::{Choices, Handler, Ident, Identifiers};
use aud_text::place::Pos;
use aud_typed::program::{Exception, Statement as TypedStatement};
use std::alloc::Global;
use std::marker::Model;

// Notes where what a name stands for is no exception (RM 11.2(6), 11.3(3)).
fn check_exception(meaning: Option<Meaning>, at: Pos, faults: &mut Least)
    ensures { faults.new ≡ noted faults.old (exception_faults meaning at) }
{
    match meaning {
        None => name_not_declared(at, faults),
        Some(Meaning::Exception(_)) => {}
        Some(meaning) => note_no_value(meaning, at, faults),
    }
}

fn exception_meant(meaning: Option<Meaning>) -> Option<Exception>
    ensures { result ≡ exception_meant meaning }
{
    match meaning {
        Some(Meaning::Exception(exception)) => Some(exception),
        _ => None,
    }
}

fn raised_by(alloc: Global, at: Pos, exception: Option<Exception>) -> Left<TypedStatement>
    ensures { IfOk result (λ typed. plain_typed_statement typed.value ≡ raised_by at exception) }
{
    match exception {
        None => boxed(alloc, TypedStatement::Null(at)),
        Some(exception) => boxed(alloc, TypedStatement::Raise(at, exception)),
    }
}

/// Checks a raise statement (RM 11.3), which may stand in a handler: notes its faults, and answers what is
/// left of it.
#[inline(never)]
pub fn raise(
    at: Pos,
    name: &Option<Ident>,
    in_handler: bool,
    scope: &Scope<'_>,
    faults: &mut Least,
) -> Left<TypedStatement>
    ensures { Leaves (in_box plain_typed_statement) result faults.old faults.new
        (raise_faults at name.now in_handler scope.now)
        (typed_raise at name.now scope.now) }
{
    match name {
        None => {
            raise_in_handler(in_handler, at, faults);
            boxed(scope.alloc(), TypedStatement::RaiseAgain(at))
        }
        Some(name) => {
            let meaning = scope.visible(&name.name);
            check_exception(meaning, name.at, faults);
            raised_by(scope.alloc(), at, exception_meant(meaning))
        }
    }
}

// What the handlers so far are for: these exceptions, and whether one of them is for all others.
#[derive(Drop)]
struct Chosen {
    exceptions: Vec<Exception>,
    others: bool,
}

impl Model for Chosen {
    ghost Value = { Plain };

    ghost view = { λ chosen. record {
      exceptions = chosen.exceptions.items;
      others = chosen.others;
    } };
}

fn is_chosen(exception: Exception, chosen: &[Exception]) -> bool
    ensures { result ≡ is_chosen exception chosen.now }
{
    chosen.iter().any(|other| exception == *other)
}

impl Chosen {
    fn new(alloc: Global) -> Self
        ensures { result ≡ none_chosen }
    {
        Chosen {
            exceptions: Vec::new(alloc),
            others: false,
        }
    }

    // Chooses an exception, if there is one.
    fn choose(&mut self, exception: Option<Exception>, at: Pos, faults: &mut Least) -> Made<()>
        ensures chosen { OnOk result (self.new ≡ with_exception exception self.old) }
        ensures noted { OnOk result (faults.new
            ≡ noted faults.old (chosen_once exception at self.old)) }
    {
        if let Some(exception) = exception {
            good_choice(!is_chosen(exception, &self.exceptions), at, faults);
            self.exceptions.push(exception)?;
        }
        Ok(())
    }

    // Chooses what a name stands for.
    #[tactic(auto, using(aud_typing::proofs::Notes::noted_append))]
    fn name(&mut self, name: &Ident, scope: &Scope<'_>, faults: &mut Least) -> Made<()>
        ensures chosen { OnOk result (self.new ≡ name_chosen name.now self.old scope.now) }
        ensures noted { OnOk result (faults.new
            ≡ noted faults.old (name_chosen_faults name.now self.old scope.now)) }
    {
        let meaning = scope.visible(&name.name);
        check_exception(meaning, name.at, faults);
        self.choose(exception_meant(meaning), name.at, faults)
    }

    #[tactic(auto, using(aud_typing::proofs::Notes::noted_append))]
    fn names(&mut self, names: &Identifiers, scope: &Scope<'_>, faults: &mut Least) -> Made<()>
        ensures chosen { OnOk result (self.new
            ≡ names_chosen (names_in names.now) self.old scope.now) }
        ensures noted { OnOk result (faults.new
            ≡ noted faults.old (names_chosen_faults (names_in names.now) self.old scope.now)) }
    {
        self.name(&names.first, scope, faults)?;
        for other in &names.others {
            self.name(other, scope, faults)?;
        }
        Ok(())
    }

    // Chooses what a handler is for, which may be the last one.
    fn choices(
        &mut self,
        choices: &Choices,
        is_last: bool,
        scope: &Scope<'_>,
        faults: &mut Least,
    ) -> Made<()>
        ensures chosen { OnOk result (self.new
            ≡ chosen_after (plain_choices choices.now) self.old scope.now) }
        ensures noted { OnOk result (faults.new ≡ noted faults.old
            (choices_faults (plain_choices choices.now) is_last self.old scope.now)) }
    {
        match choices {
            Choices::Named(names) => self.names(names, scope, faults),
            Choices::Others(at) => {
                good_choice(is_last && !self.others, *at, faults);
                self.others = true;
                Ok(())
            }
        }
    }
}

/// Checks the choices of the handlers of a body (RM 11.2(7, 8)).
pub fn all_choices(handlers: &[Handler], scope: &Scope<'_>, faults: &mut Least) -> Made<()>
    ensures { OnOk result (faults.new ≡ noted faults.old
        (all_choices_faults (handler_list handlers.now) none_chosen scope.now)) }
{
    let mut chosen = Chosen::new(scope.alloc());
    let mut rest = handlers;
    while let Some((handler, others)) = rest.split_first() {
        chosen.choices(&handler.choices, others.is_empty(), scope, faults)?;
        rest = others;
    }
    Ok(())
}

// Adds the exception that a name stands for.
fn add(name: &Ident, scope: &Scope<'_>, all: &mut Vec<Exception>) -> Made<()>
    ensures { OnOk result (all.new.items
        ≡ all.old.items ++ exceptions_of (name.now ∷ []) scope.now) }
{
    match exception_meant(scope.visible(&name.name)) {
        None => Ok(()),
        Some(exception) => add_last(all, exception),
    }
}

fn exceptions_of(names: &Identifiers, scope: &Scope<'_>) -> Made<Vec<Exception>>
    ensures { IfOk result (λ all. all.items ≡ exceptions_of (names_in names.now) scope.now) }
{
    let mut all = Vec::new(scope.alloc());
    add(&names.first, scope, &mut all)?;
    for other in &names.others {
        add(other, scope, &mut all)?;
    }
    Ok(all)
}

/// The exceptions that a handler is for, besides all others.
pub fn choices_of(choices: &Choices, scope: &Scope<'_>) -> Made<Vec<Exception>>
    ensures { IfOk result (λ all. all.items ≡ choices_of (plain_choices choices.now) scope.now) }
{
    match choices {
        Choices::Named(names) => exceptions_of(names, scope),
        Choices::Others(_) => Ok(Vec::new(scope.alloc())),
    }
}

/// Whether a handler is for all others.
pub fn is_others(choices: &Choices) -> bool
    ensures { result ≡ is_others (plain_choices choices.now) }
{
    match choices {
        Choices::Named(_) => false,
        Choices::Others(_) => true,
    }
}
