// Declarations of variables, constants and arrays (RM 3.3.1), and of exceptions (RM 11.1).

ghost use Rattle.aud_grammar.specs.Grammar as g;
ghost use Rattle.aud_grammar.specs.Grammar.{N};
ghost use Rattle.aud_grammar.specs.Actions.{an_exception};
ghost use Rattle.aud_parse.specs.Ties.Items.{names_item, variable_item, constant_item, bound_item, index_item, array_item, declaration_item, boxed_declaration_item};
ghost use Rattle.aud_cursor.specs.Ties.Reads.{Reads, ReadsFlat};

use crate::build::boxed;
use aud_cursor::behind::{both, ended};
use aud_cursor::cursor::{Read, Rest, deeper, is, token, word};
use aud_cursor::leaf::{ident, mark, more_idents};
use aud_cursor::value::number_value;
use aud_lex::token::Kind;
use aud_parse_expr::expression::{opt_value, value};
use aud_syntax::tree::{Bound, Declaration, Expression, Ident, Identifiers, Number};
use std::alloc::Global;

/// Names (RM 3.3.1(4)).
pub fn identifiers(alloc: Global, start: Rest) -> Read<Identifiers>
    ensures { ReadsFlat names_item (N g.Identifiers) start.entry result }
{
    let (first, rest) = ident(alloc, start)?;
    let (others, rest) = more_idents(alloc, rest, Kind::Comma)?;
    Ok((Identifiers { first, others }, rest))
}

/// The subtype of variables, and the value with which they begin, if there is one.
fn variable(alloc: Global, start: Rest, room: u32) -> Read<(Ident, Option<Expression>)>
    ensures { Reads variable_item (N g.Variable) room start.entry result }
{
    let (subtype, rest) = ident(alloc, start)?;
    let (value, rest) = opt_value(alloc, rest, room, Kind::Becomes)?;
    ended((subtype, value), rest, Kind::Semicolon)
}

/// The subtype of constants, and their value.
fn constant(alloc: Global, start: Rest, room: u32) -> Read<(Ident, Expression)>
    ensures { Reads constant_item (N g.Constant) room start.entry result }
{
    let rest = word(start, Kind::Constant)?;
    let (subtype, rest) = ident(alloc, rest)?;
    let ((subtype, value), rest) = both(subtype, value(alloc, rest, room, Kind::Becomes))?;
    ended((subtype, Box::into_inner(value)), rest, Kind::Semicolon)
}

/// The bounds of an index.
type Index = (Box<Bound>, Box<Bound>);

/// A bound of an index (RM 3.6.1).
fn bound(alloc: Global, start: Rest) -> Read<Box<Bound>>
    ensures { ReadsFlat bound_item (N g.Bound) start.entry result }
{
    let (negative, rest) = mark(start, Kind::Minus);
    let (t, rest) = token(rest, Kind::Integer)?;
    let value = number_value(t.text());
    let number = Number { value, at: t.at() };
    let boxed = boxed(alloc, Bound { negative, number })?;
    Ok((boxed, rest))
}

/// The bounds of an index, in parentheses.
fn in_index(alloc: Global, start: Rest) -> Read<Index>
    ensures { ReadsFlat index_item (N g.InIndex) start.entry result }
{
    let rest = word(start, Kind::LeftParenthesis)?;
    let (low, rest) = bound(alloc, rest)?;
    let rest = word(rest, Kind::DoubleDot)?;
    let (high, rest) = bound(alloc, rest)?;
    let rest = word(rest, Kind::RightParenthesis)?;
    Ok(((low, high), rest))
}

/// The same, one level deeper (RM 3.6).
fn index(alloc: Global, start: Rest, room: u32) -> Read<Index>
    ensures { Reads index_item (N g.Index) room start.entry result }
{
    deeper(start, room, is(start, Kind::LeftParenthesis))?;
    in_index(alloc, start)
}

/// The index of arrays, and the subtype of their elements (RM 3.6).
fn array(alloc: Global, start: Rest, room: u32) -> Read<(Index, Ident)>
    ensures { Reads array_item (N g.ArrayRest) room start.entry result }
{
    let rest = word(start, Kind::Array)?;
    let (index, rest) = index(alloc, rest, room)?;
    let rest = word(rest, Kind::Of)?;
    let (subtype, rest) = ident(alloc, rest)?;
    ended((index, subtype), rest, Kind::Semicolon)
}

/// What stands behind the names of exceptions (RM 11.1).
fn exceptions(start: Rest) -> Read<()>
    ensures { ReadsFlat (λ _. an_exception) (N g.ExceptionRest) start.entry result }
{
    let rest = word(start, Kind::Exception)?;
    let rest = word(rest, Kind::Semicolon)?;
    Ok(((), rest))
}

/// Variables, constants or arrays of one subtype, or exceptions.
fn named(alloc: Global, start: Rest, room: u32) -> Read<Declaration>
    ensures { Reads declaration_item (N g.NamedDeclaration) room start.entry result }
{
    let (names, rest) = identifiers(alloc, start)?;
    let rest = word(rest, Kind::Colon)?;
    if is(rest, Kind::Identifier) {
        let ((names, object), rest) = both(names, variable(alloc, rest, room))?;
        return Ok((Declaration::Object(names, object.0, object.1), rest));
    }
    if is(rest, Kind::Constant) {
        let ((names, object), rest) = both(names, constant(alloc, rest, room))?;
        return Ok((Declaration::Constant(names, object.0, object.1), rest));
    }
    if is(rest, Kind::Array) {
        let ((names, ((low, high), subtype)), rest) = both(names, array(alloc, rest, room))?;
        let (low, high) = (Box::into_inner(low), Box::into_inner(high));
        return Ok((Declaration::Array(names, low, high, subtype), rest));
    }
    let ((names, ()), rest) = both(names, exceptions(rest))?;
    Ok((Declaration::Exception(names), rest))
}

/// The same in a box, since declarations lie in one another.
#[inline(never)]
pub fn named_declaration(alloc: Global, start: Rest, room: u32) -> Read<Box<Declaration>>
    ensures { Reads boxed_declaration_item (N g.NamedDeclaration) room start.entry result }
{
    let (declaration, rest) = named(alloc, start, room)?;
    let boxed = boxed(alloc, declaration)?;
    Ok((boxed, rest))
}
