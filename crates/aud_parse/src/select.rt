// What may stand in a select statement (RM 9.7).
//
// What stands in a selective accept so far decides which alternatives may follow: there is one
// accept at least, and beside accepts there are delays, one terminate, or an else part.

ghost use Rattle.aud_grammar.specs.Grammar as g;
ghost use Rattle.aud_grammar.specs.Grammar.{N, Opt};
ghost use Rattle.aud_parse.specs.Ties.Items.{guard_item, boxed_alternative_item};
ghost use Rattle.aud_parse.specs.Ties.Alternatives.{Begins, Goes};
ghost use Rattle.aud_cursor.specs.Ties.Reads.{MayRead, ReadsFlat};

use crate::build_select::terminate_alternative_of;
use aud_cursor::behind::ended;
use aud_cursor::cursor::{Read, Rest, accept, is, word};
use aud_lex::token::Kind;
use aud_parse_expr::expression::expression;
use aud_syntax::tree::{Alternative, Expression};
use std::alloc::Global;

/// What an alternative of a selective accept begins with (RM 9.7.1(4)).
#[derive(Clone, Copy)]
pub enum Form {
    Accept,
    Delay,
    Terminate,
}

/// What stands in a selective accept so far.
#[derive(Clone, Copy)]
pub enum Seen {
    /// Accepts alone, to which anything may be added.
    Accepts,
    /// Delays alone: an accept is needed.
    Delays,
    AcceptsAndDelays,
    /// A terminate alone: an accept is needed.
    Terminate,
    AcceptsAndTerminate,
}

/// With which alternative a selective accept begins.
pub fn first_form(start: Rest) -> (Form, Seen)
    ensures { Begins start.entry.tokens.now result.0 result.1 }
{
    if is(start, Kind::Accept) {
        return (Form::Accept, Seen::Accepts);
    }
    if is(start, Kind::Delay) {
        return (Form::Delay, Seen::Delays);
    }
    (Form::Terminate, Seen::Terminate)
}

/// Which alternative is read next, and what stands there then.
pub fn next_form(seen: Seen, start: Rest) -> (Form, Seen)
    ensures { Goes seen start.entry.tokens.now result.0 result.1 }
{
    match seen {
        Seen::Accepts if is(start, Kind::Accept) => (Form::Accept, Seen::Accepts),
        Seen::Accepts if is(start, Kind::Delay) => (Form::Delay, Seen::AcceptsAndDelays),
        Seen::Accepts => (Form::Terminate, Seen::AcceptsAndTerminate),
        Seen::Delays if is(start, Kind::Delay) => (Form::Delay, Seen::Delays),
        Seen::Delays => (Form::Accept, Seen::AcceptsAndDelays),
        Seen::AcceptsAndDelays if is(start, Kind::Accept) => {
            (Form::Accept, Seen::AcceptsAndDelays)
        }
        Seen::AcceptsAndDelays => (Form::Delay, Seen::AcceptsAndDelays),
        Seen::Terminate | Seen::AcceptsAndTerminate => (Form::Accept, Seen::AcceptsAndTerminate),
    }
}

/// A guard, if there is one (RM 9.7.1(2)).
pub fn opt_guard(alloc: Global, start: Rest, room: u32) -> Read<Option<Box<Expression>>>
    ensures { MayRead guard_item (Opt g.Guard) room start.entry result }
{
    if let Some((_, behind)) = accept(start, Kind::When) {
        let (condition, rest) = expression(alloc, behind, room)?;
        let (condition, rest) = ended(condition, rest, Kind::Arrow)?;
        return Ok((Some(condition), rest));
    }
    Ok((None, start))
}

/// A terminate alternative (RM 9.7.1(7)).
#[inline(never)]
pub fn terminate_alternative(alloc: Global, start: Rest) -> Read<Box<Alternative>>
    ensures { ReadsFlat boxed_alternative_item (N g.TerminateAlternative) start.entry result }
{
    let rest = word(start, Kind::Terminate)?;
    let alternative = terminate_alternative_of(alloc)?;
    ended(alternative, rest, Kind::Semicolon)
}
