// The rules of the language that a program may break: each function notes a breach of one of them.

ghost use Rattle.std.specs.Prelude.{◌≡◌, not};
ghost use Rattle.aud_fault.specs.Least.{noted};
ghost use Rattle.aud_names.specs.Names.{is_declared};
ghost use Rattle.aud_names.specs.Rules.{base_of_subtype, base_asked, name_not_declared, declared_once, program_named, wrong_kind_of_name, fits, right_type, wrong_number_of_arguments, not_a_variable, right_name_at_end, right_label_at_end, no_matching_body, accept_or_count_in_place, same_mode, agree, same_parameter, conform, same_parameters, formals_conform, exit_in_loop, return_in_place, raise_in_handler, good_choice, function_call_out_of_place, number_too_large, too_many_decimals, no_change_within_function, parameter_in_barrier, not_an_entry, requeue_in_place, in_own_object, declared_outside};

use crate::names::{NamedParameter, Parameter, Symbols, is_standard, predefined};
use aud_fault::fault::Least;
use aud_syntax::tree::{Ident, Mode};
use aud_text::name::Name;
use aud_text::place::Pos;
use aud_text::refusal::Refusal;
use aud_typed::program::Subtype;

/// The types that places ask.
#[derive(Clone, Copy)]
pub enum Base {
    /// Integer (RM 3.5.4).
    Whole,
    /// Boolean (RM 3.5.3).
    Truth,
    /// A text, which is put out.
    Text,
}

/// The type of a subtype (RM 3.2).
pub fn base_of_subtype(subtype: Subtype) -> Base
    ensures { result ≡ base_of_subtype subtype }
{
    match subtype {
        Subtype::Integer | Subtype::Natural | Subtype::Positive => Base::Whole,
        Subtype::Boolean => Base::Truth,
    }
}

/// The type of a subtype, where that is known.
pub fn base_asked(subtype: Option<Subtype>) -> Option<Base>
    ensures { result ≡ base_asked subtype }
{
    match subtype {
        None => None,
        Some(subtype) => Some(base_of_subtype(subtype)),
    }
}

/// A name is visible (RM 8.3).
pub fn name_not_declared(at: Pos, faults: &mut Least)
    ensures { faults.new ≡ noted faults.old (name_not_declared at) }
{
    faults.note(at, Refusal::NameNotDeclared);
}

/// A region declares a name once (RM 8.3(26)): whether this declaration of it is the first.
pub fn declared_once(ident: &Ident, symbols: &Symbols, faults: &mut Least) -> bool
    ensures first { result ≡ not (is_declared ident.now.name symbols.now.entries) }
    ensures noted { faults.new ≡ noted faults.old
        (declared_once ident.now.name ident.now.at symbols.now.entries) }
{
    if symbols.contains_key(&ident.name) {
        faults.note(ident.at, Refusal::DeclaredTwice);
        return false;
    }
    true
}

/// A program has no name of a predefined type or exception (RM 8.3(26), 10.1.1).
pub fn program_named(ident: &Ident, faults: &mut Least)
    ensures { faults.new ≡ noted faults.old (program_named ident.now.name ident.now.at) }
{
    if is_standard(predefined(&ident.name)) {
        faults.note(ident.at, Refusal::DeclaredTwice);
    }
}

/// A name is of the kind that its place asks.
pub fn wrong_kind_of_name(at: Pos, faults: &mut Least)
    ensures { faults.new ≡ noted faults.old (wrong_kind_of_name at) }
{
    faults.note(at, Refusal::WrongKindOfName);
}

fn fits(asked: Option<Base>, given: Option<Base>) -> bool
    ensures { result ≡ fits asked given }
{
    match (asked, given) {
        (Some(asked), Some(given)) => asked == given,
        _ => true,
    }
}

/// An expression has the type that its place asks, where both are known (RM 8.6).
pub fn right_type(asked: Option<Base>, at: Pos, given: Option<Base>, faults: &mut Least)
    ensures { faults.new ≡ noted faults.old (right_type asked at given) }
{
    if !fits(asked, given) {
        faults.note(at, Refusal::WrongType);
    }
}

/// As many arguments as formals (RM 6.4.1), one for Image of a type and none for other attributes
/// (RM 3.5(35), 4.10(40), 3.5(12)).
pub fn wrong_number_of_arguments(at: Pos, faults: &mut Least)
    ensures { faults.new ≡ noted faults.old (wrong_number_of_arguments at) }
{
    faults.note(at, Refusal::WrongNumberOfArguments);
}

/// A target, and an argument of mode out or in out, is a variable (RM 5.2(5), 6.4.1(5)), and no constant (RM 3.3.1(5)).
pub fn not_a_variable(at: Pos, faults: &mut Least)
    ensures { faults.new ≡ noted faults.old (not_a_variable at) }
{
    faults.note(at, Refusal::NotAVariable);
}

/// The name after `end` is the procedure's or task's (RM 6.3(4), 9.1(7)).
pub fn right_name_at_end(name: &Name, last: &Option<Ident>, faults: &mut Least)
    ensures { faults.new ≡ noted faults.old (right_name_at_end name.now last.now) }
{
    if let Some(last) = last {
        if last.name != *name {
            faults.note(last.at, Refusal::WrongNameAtEnd);
        }
    }
}

/// A labelled loop or block has its label after its end, another has no name there (RM 5.5(5), 5.6(3)).
pub fn right_label_at_end(
    label: &Option<Ident>,
    last: &Option<Ident>,
    semicolon: Pos,
    faults: &mut Least,
)
    ensures { faults.new
        ≡ noted faults.old (right_label_at_end label.now last.now semicolon) }
{
    match (label, last) {
        (None, None) => {}
        (None, Some(last)) => faults.note(last.at, Refusal::WrongNameAtEnd),
        (Some(_), None) => faults.note(semicolon, Refusal::WrongNameAtEnd),
        (Some(label), Some(_)) => right_name_at_end(&label.name, last, faults),
    }
}

/// A task has one body, later in the same declarative part, and a body has its declaration (RM 3.11.1).
pub fn no_matching_body(at: Pos, faults: &mut Least)
    ensures { faults.new ≡ noted faults.old (no_matching_body at) }
{
    faults.note(at, Refusal::NoMatchingBody);
}

/// An accept and a Count of an entry stand directly in the body of the task whose entry it is (RM 9.5.2(14), 9.9(4)), a Count
/// of a protected entry in the object's body, and an accept in no accept of the same entry (RM 9.5.2(15)).
pub fn accept_or_count_in_place(good: bool, at: Pos, faults: &mut Least)
    ensures { faults.new ≡ noted faults.old (accept_or_count_in_place good at) }
{
    if !good {
        faults.note(at, Refusal::AcceptOrCountOutOfPlace);
    }
}

fn same_mode(left: Mode, right: Mode) -> bool
    ensures { result ≡ same_mode left right }
{
    match (left, right) {
        (Mode::Unstated | Mode::In(_), Mode::Unstated | Mode::In(_))
        | (Mode::Out(_), Mode::Out(_))
        | (Mode::InOut(_), Mode::InOut(_)) => true,
        _ => false,
    }
}

/// Whether two subtypes are the same; nothing is said of one that is not known.
pub fn agree(left: Option<Subtype>, right: Option<Subtype>) -> bool
    ensures { result ≡ agree left right }
{
    match (left, right) {
        (Some(left), Some(right)) => left == right,
        _ => true,
    }
}

fn same_parameter(left: Parameter, right: Parameter) -> bool
    ensures { result ≡ same_parameter left right }
{
    same_mode(left.mode, right.mode) && agree(left.subtype, right.subtype)
}

/// Whether formals have the same names, modes and subtypes in order as others (RM 6.3.1).
pub fn conform(declared: &[NamedParameter], given: &[NamedParameter]) -> bool
    ensures { result ≡ conform declared.now given.now }
{
    let mut left = declared;
    let mut right = given;
    while let Some((first, others)) = left.split_first() {
        let Some((second, more)) = right.split_first() else {
            return false;
        };
        if first.name != second.name || !same_parameter(first.parameter, second.parameter) {
            return false;
        }
        left = others;
        right = more;
    }
    match right.first() {
        None => true,
        Some(_) => false,
    }
}

/// Whether formals have the same modes and subtypes in order as others, whatever their names are (RM 9.5.4(3)).
pub fn same_parameters(target: &[NamedParameter], given: &[NamedParameter]) -> bool
    ensures { result ≡ same_parameters target.now given.now }
{
    let mut left = target;
    let mut right = given;
    while let Some((first, others)) = left.split_first() {
        let Some((second, more)) = right.split_first() else {
            return false;
        };
        if !same_parameter(first.parameter, second.parameter) {
            return false;
        }
        left = others;
        right = more;
    }
    match right.first() {
        None => true,
        Some(_) => false,
    }
}

/// The formals of an accept conform to those of its entry (RM 9.5.2(14)).
pub fn formals_conform(good: bool, at: Pos, faults: &mut Least)
    ensures { faults.new ≡ noted faults.old (formals_conform good at) }
{
    if !good {
        faults.note(at, Refusal::FormalsDoNotConform);
    }
}

/// An exit leaves a loop that encloses it (RM 5.7(4)).
pub fn exit_in_loop(good: bool, at: Pos, faults: &mut Least)
    ensures { faults.new ≡ noted faults.old (exit_in_loop good at) }
{
    if !good {
        faults.note(at, Refusal::ExitWithoutLoop);
    }
}

/// A return stands in a callable construct, with a value exactly in a function (RM 6.5(4, 5)).
pub fn return_in_place(good: bool, at: Pos, faults: &mut Least)
    ensures { faults.new ≡ noted faults.old (return_in_place good at) }
{
    if !good {
        faults.note(at, Refusal::ReturnOutOfPlace);
    }
}

/// A raise without a name stands in a handler (RM 11.3(3)).
pub fn raise_in_handler(good: bool, at: Pos, faults: &mut Least)
    ensures { faults.new ≡ noted faults.old (raise_in_handler good at) }
{
    if !good {
        faults.note(at, Refusal::RaiseWithoutHandler);
    }
}

/// No exception is chosen twice by the handlers of a body, and `others` is chosen last (RM 11.2(7, 8)).
pub fn good_choice(good: bool, at: Pos, faults: &mut Least)
    ensures { faults.new ≡ noted faults.old (good_choice good at) }
{
    if !good {
        faults.note(at, Refusal::BadHandlerChoice);
    }
}

/// A number is at most the last Integer (RM 3.5.4).
pub fn number_too_large(at: Pos, faults: &mut Least)
    ensures { faults.new ≡ noted faults.old (number_too_large at) }
{
    faults.note(at, Refusal::NumberTooLarge);
}

/// A real number has at most three decimals.
pub fn too_many_decimals(at: Pos, faults: &mut Least)
    ensures { faults.new ≡ noted faults.old (too_many_decimals at) }
{
    faults.note(at, Refusal::TooManyDecimals);
}

/// A function's call is the whole right side of an assignment (profile choice).
pub fn function_call_out_of_place(at: Pos, faults: &mut Least)
    ensures { faults.new ≡ noted faults.old (function_call_out_of_place at) }
{
    faults.note(at, Refusal::FunctionCallOutOfPlace);
}

/// A protected function's body changes no component of its object, and calls no procedure or entry of it (RM 9.5.1(2)).
pub fn no_change_within_function(good: bool, at: Pos, faults: &mut Least)
    ensures { faults.new ≡ noted faults.old (no_change_within_function good at) }
{
    if !good {
        faults.note(at, Refusal::ChangeWithinFunction);
    }
}

/// A barrier names no formal of its entry (RM 9.5.2(18)).
pub fn parameter_in_barrier(at: Pos, faults: &mut Least)
    ensures { faults.new ≡ noted faults.old (parameter_in_barrier at) }
{
    faults.note(at, Refusal::ParameterInBarrier);
}

/// What a timed or conditional call calls, and where a call is made again, is an entry (RM 9.7.2, 9.7.3, 9.5.4(3)).
pub fn not_an_entry(at: Pos, faults: &mut Least)
    ensures { faults.new ≡ noted faults.old (not_an_entry at) }
{
    faults.note(at, Refusal::NotAnEntry);
}

/// A requeue stands in an accept or an entry body, with no body or accept between (RM 9.5.4(4)).
pub fn requeue_in_place(good: bool, at: Pos, faults: &mut Least)
    ensures { faults.new ≡ noted faults.old (requeue_in_place good at) }
{
    if !good {
        faults.note(at, Refusal::RequeueOutOfPlace);
    }
}

/// An entry body makes its call again on entries of its own object (profile).
pub fn in_own_object(good: bool, at: Pos, faults: &mut Least)
    ensures { faults.new ≡ noted faults.old (in_own_object good at) }
{
    if !good {
        faults.note(at, Refusal::ExternalRequeue);
    }
}

/// The target's task or object is not declared within an accept around the requeue, nor, for a requeue in an accept, the
/// target's object within a task's body (RM 9.5.4(6), profile).
pub fn declared_outside(good: bool, at: Pos, faults: &mut Least)
    ensures { faults.new ≡ noted faults.old (declared_outside good at) }
{
    if !good {
        faults.note(at, Refusal::TargetDeclaredInside);
    }
}
