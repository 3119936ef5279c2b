// Expressions (RM 4.4).
//
// Trees are handed on in boxes, and what is not called at each level of parentheses is not inlined, so
// that little stands in the stack frames of each level.

#![tactic(auto, using(aud_cursor::proofs::Passing::turns_over))]

ghost use Rattle.aud_grammar.specs.Grammar as g;
ghost use Rattle.aud_grammar.specs.Grammar.{Phrase, N, Opt, Rep};
ghost use Rattle.aud_grammar.specs.Actions.{a_sign, an_adding, a_multiplying, an_operator, a_relational};
ghost use Rattle.aud_cursor.specs.Ties.Items.{vec_item, opt_item, boxed_item};
ghost use Rattle.aud_cursor.specs.Ties.Reads.{Reads, MayRead, Takes, TakesAny};
ghost use Rattle.aud_cursor.specs.Ties.Parts.{IsValue};
ghost use Rattle.aud_connective.specs.Ties.Connects.{further};
ghost use Rattle.aud_parse_expr.specs.Ties.Items.{parens_item, part_item, name_item, args_item, attribute_item, primary_item, factor_item, multiplied_item, term_item, added_item, simple_item, relation_item, expression_item};

use crate::assemble::{
    alone, boxed, connected, product, push_added, push_multiplied, push_relation, push_tree,
    related, sum, unrelated,
};
use aud_connective::connective::{again, comes_again, logical};
use aud_cursor::behind::{both, ended};
use aud_cursor::cursor::{Read, Rest, accept, chosen, deeper, is, is_one_of, token, word};
use aud_cursor::leaf::{ident, literal};
use aud_cursor::value::number_value;
use aud_lex::token::Kind;
use aud_syntax::tree::{
    Added, Adding, Connective, Expression, Factor, Highest, Ident, Multiplied, Multiplying, Name,
    NamePart, Number, Operator, Primary, Relation, Relational, Sign, Signed, Simple, Term,
};
use aud_text::place::Pos;
use std::alloc::Global;

const EXPRESSIONS: [Kind; 8] = [
    Kind::Plus,
    Kind::Minus,
    Kind::Abs,
    Kind::Not,
    Kind::Integer,
    Kind::Text,
    Kind::Identifier,
    Kind::LeftParenthesis,
];

/// An expression in parentheses, which lies one level deeper, and where they open.
#[cycle(expression)]
pub fn parens(alloc: Global, start: Rest, room: u32) -> Read<(Pos, Box<Expression>)>
    ensures { Reads parens_item (N g.Parens) room start.entry result }
{
    let inside = deeper(start, room, is(start, Kind::LeftParenthesis))?;
    let (open, rest) = token(start, Kind::LeftParenthesis)?;
    let (inner, rest) = expression(alloc, rest, inside)?;
    let (inner, rest) = ended(inner, rest, Kind::RightParenthesis)?;
    Ok(((open.at(), inner), rest))
}

/// An attribute's name and its argument (RM 4.1.4).
#[cycle(expression)]
fn attribute(alloc: Global, start: Rest, room: u32) -> Read<(Ident, Option<Box<Expression>>)>
    ensures { Reads attribute_item (N g.Attribute) room start.entry result }
{
    let rest = word(start, Kind::Apostrophe)?;
    let (name, rest) = ident(alloc, rest)?;
    if is(rest, Kind::LeftParenthesis) {
        let (inner, rest) = parens(alloc, rest, room)?;
        return Ok(((name, Some(inner.1)), rest));
    }
    Ok(((name, None), rest))
}

/// Arguments in their parentheses (RM 4.1.1, 6.4).
#[cycle(expression)]
#[inline(never)]
fn in_args(alloc: Global, start: Rest, room: u32) -> Read<Vec<Expression>>
    ensures { Reads args_item (N g.InArgs) room start.entry result }
{
    let mut all = Vec::new(alloc);
    let mut rest = word(start, Kind::LeftParenthesis)?;
    'turns: loop {
        let (one, after) = expression(alloc, rest, room)?;
        push_tree(&mut all, Box::into_inner(one))?;
        let Some((_, behind)) = accept(after, Kind::Comma) else {
            let rest = word(after, Kind::RightParenthesis)?;
            return Ok((all, rest));
        };
        rest = behind;
    }
}

/// Arguments, which lie one level deeper.
#[cycle(expression)]
fn args(alloc: Global, start: Rest, room: u32) -> Read<Vec<Expression>>
    ensures { Reads args_item (N g.Args) room start.entry result }
{
    let inside = deeper(start, room, is(start, Kind::LeftParenthesis))?;
    in_args(alloc, start, inside)
}

/// Arguments, if there are any (RM 4.1.1, 6.4).
#[cycle(expression)]
pub fn opt_args(alloc: Global, start: Rest, room: u32) -> Read<Vec<Expression>>
    ensures { MayRead args_item (Opt g.Args) room start.entry result }
{
    if is(start, Kind::LeftParenthesis) {
        return args(alloc, start, room);
    }
    Ok((Vec::new(alloc), start))
}

/// A part of a name: an identifier, and the arguments behind it (RM 4.1).
#[cycle(expression)]
fn part(alloc: Global, start: Rest, room: u32) -> Read<NamePart>
    ensures { Reads part_item (N g.NamePart) room start.entry result }
{
    let (ident, rest) = ident(alloc, start)?;
    let (args, rest) = opt_args(alloc, rest, room)?;
    Ok((NamePart { ident, args }, rest))
}

/// The further parts of a name, each behind a point (RM 4.1.3).
#[cycle(expression)]
#[inline(never)]
pub fn selected(alloc: Global, start: Rest, room: u32) -> Read<Vec<NamePart>>
    ensures { MayRead (vec_item part_item) (Rep g.Selected) room start.entry result }
{
    let mut all = Vec::new(alloc);
    let mut rest = start;
    'turns: while let Some((_, behind)) = accept(rest, Kind::Point) {
        let (part, after) = part(alloc, behind, room)?;
        push_tree(&mut all, part)?;
        rest = after;
    }
    Ok((all, rest))
}

/// A name (RM 4.1).
#[cycle(expression)]
#[inline(never)]
pub fn name(alloc: Global, start: Rest, room: u32) -> Read<Box<Name>>
    ensures { Reads name_item (N g.Name) room start.entry result }
{
    let (first, rest) = part(alloc, start, room)?;
    let (others, rest) = selected(alloc, rest, room)?;
    let boxed = boxed(alloc, Name { first, others })?;
    Ok((boxed, rest))
}

/// A name, or an attribute of it (RM 4.1, 4.1.4).
#[cycle(expression)]
#[inline(never)]
fn named(alloc: Global, start: Rest, room: u32) -> Read<Primary>
    ensures { Reads primary_item (N g.Named) room start.entry result }
{
    let (prefix, rest) = name(alloc, start, room)?;
    if is(rest, Kind::Apostrophe) {
        let (attribute, rest) = attribute(alloc, rest, room)?;
        let (designator, argument) = attribute;
        return Ok((Primary::Attribute(prefix, designator, argument), rest));
    }
    Ok((Primary::Name(prefix), rest))
}

/// A primary (RM 4.4(7)).
#[cycle(expression)]
fn primary(alloc: Global, start: Rest, room: u32) -> Read<Primary>
    ensures { Reads primary_item (N g.Primary) room start.entry result }
{
    if is(start, Kind::Integer) {
        let (t, rest) = token(start, Kind::Integer)?;
        let value = number_value(t.text());
        return Ok((Primary::Integer(Number { value, at: t.at() }), rest));
    }
    if is(start, Kind::Text) {
        let (value, rest) = literal(alloc, start)?;
        return Ok((Primary::Text(value), rest));
    }
    if is(start, Kind::Identifier) {
        return named(alloc, start, room);
    }
    let (group, rest) = parens(alloc, start, room)?;
    Ok((Primary::Group(group.0, group.1), rest))
}

/// An operator before a primary, if there is one (RM 4.5.6).
fn opt_operator(start: Rest) -> (Option<Operator>, Rest)
    ensures { TakesAny (opt_item an_operator) (Opt g.Operator) start.entry result }
{
    let operators = [(Kind::Abs, Highest::Magnitude), (Kind::Not, Highest::Not)];
    match chosen(start, &operators) {
        Some((highest, t, rest)) => {
            let at = t.at();
            (Some(Operator { highest, at }), rest)
        }
        None => (None, start),
    }
}

/// A factor (RM 4.4(6)).
#[cycle(expression)]
fn factor(alloc: Global, start: Rest, room: u32) -> Read<Box<Factor>>
    ensures { Reads (boxed_item factor_item) (N g.Factor) room start.entry result }
{
    let (operator, rest) = opt_operator(start);
    let (primary, rest) = primary(alloc, rest, room)?;
    Ok((boxed(alloc, Factor { operator, primary })?, rest))
}

/// A multiplying operator, if one comes next (RM 4.5.5).
fn multiplying(start: Rest) -> Option<(Multiplying, Rest)>
    ensures { Takes a_multiplying g.MultiplyingOperator start.entry result }
{
    let operators = [
        (Kind::Star, Multiplying::Times),
        (Kind::Slash, Multiplying::Divide),
        (Kind::Mod, Multiplying::Modulo),
        (Kind::Rem, Multiplying::Remainder),
    ];
    let (operator, _, rest) = chosen(start, &operators)?;
    Some((operator, rest))
}

/// The further factors, each behind its operator.
#[cycle(expression)]
#[inline(never)]
fn multiplieds(alloc: Global, start: Rest, room: u32) -> Read<Vec<Multiplied>>
    ensures { MayRead (vec_item multiplied_item) (Rep g.Multiplied) room start.entry result }
{
    let mut all = Vec::new(alloc);
    let mut rest = start;
    'turns: while let Some((operator, behind)) = multiplying(rest) {
        let (factor, after) = factor(alloc, behind, room)?;
        push_multiplied(&mut all, operator, factor)?;
        rest = after;
    }
    Ok((all, rest))
}

/// A term (RM 4.4(5)).
#[cycle(expression)]
fn term(alloc: Global, start: Rest, room: u32) -> Read<Box<Term>>
    ensures { Reads (boxed_item term_item) (N g.Term) room start.entry result }
{
    let (first, rest) = factor(alloc, start, room)?;
    let ((first, more), rest) = both(first, multiplieds(alloc, rest, room))?;
    Ok((product(alloc, first, more)?, rest))
}

/// A binary adding operator, if one comes next (RM 4.5.3).
fn adding(start: Rest) -> Option<(Adding, Rest)>
    ensures { Takes an_adding g.AddingOperator start.entry result }
{
    let operators = [
        (Kind::Plus, Adding::Plus),
        (Kind::Minus, Adding::Minus),
        (Kind::Ampersand, Adding::Join),
    ];
    let (operator, _, rest) = chosen(start, &operators)?;
    Some((operator, rest))
}

/// The further terms, each behind its operator.
#[cycle(expression)]
#[inline(never)]
fn addeds(alloc: Global, start: Rest, room: u32) -> Read<Vec<Added>>
    ensures { MayRead (vec_item added_item) (Rep g.Added) room start.entry result }
{
    let mut all = Vec::new(alloc);
    let mut rest = start;
    'turns: while let Some((operator, behind)) = adding(rest) {
        let (term, after) = term(alloc, behind, room)?;
        push_added(&mut all, operator, term)?;
        rest = after;
    }
    Ok((all, rest))
}

/// A sign, if there is one (RM 4.5.4).
fn opt_sign(start: Rest) -> (Option<Signed>, Rest)
    ensures { TakesAny (opt_item a_sign) (Opt g.Sign) start.entry result }
{
    match chosen(
        start,
        &[(Kind::Plus, Sign::Plus), (Kind::Minus, Sign::Minus)],
    ) {
        Some((sign, t, rest)) => (Some(Signed { sign, at: t.at() }), rest),
        None => (None, start),
    }
}

/// A simple expression (RM 4.4(4)).
#[cycle(expression)]
pub fn simple(alloc: Global, start: Rest, room: u32) -> Read<Box<Simple>>
    ensures { Reads (boxed_item simple_item) (N g.Simple) room start.entry result }
{
    let (sign, rest) = opt_sign(start);
    let (first, rest) = term(alloc, rest, room)?;
    let ((first, more), rest) = both(first, addeds(alloc, rest, room))?;
    Ok((sum(alloc, sign, first, more)?, rest))
}

/// A relational operator, if one comes next (RM 4.5.2).
fn relational(start: Rest) -> Option<(Relational, Rest)>
    ensures { Takes a_relational g.RelationalOperator start.entry result }
{
    let operators = [
        (Kind::Equal, Relational::Equal),
        (Kind::NotEqual, Relational::Unequal),
        (Kind::Less, Relational::Less),
        (Kind::LessOrEqual, Relational::AtMost),
        (Kind::Greater, Relational::Greater),
        (Kind::GreaterOrEqual, Relational::AtLeast),
    ];
    let (operator, _, rest) = chosen(start, &operators)?;
    Some((operator, rest))
}

/// A relation (RM 4.4(3)).
#[cycle(expression)]
fn relation(alloc: Global, start: Rest, room: u32) -> Read<Box<Relation>>
    ensures { Reads (boxed_item relation_item) (N g.Relation) room start.entry result }
{
    let (left, rest) = simple(alloc, start, room)?;
    if let Some((operator, behind)) = relational(rest) {
        let ((left, right), rest) = both(left, simple(alloc, behind, room))?;
        return Ok((related(alloc, operator, left, right)?, rest));
    }
    Ok((unrelated(alloc, left)?, rest))
}

/// The further relations, each behind the same operator: without parentheses no two are mixed.
#[cycle(expression)]
#[inline(never)]
fn relations(alloc: Global, operator: Connective, start: Rest, room: u32) -> Read<Vec<Relation>>
    ensures { MayRead (vec_item relation_item) (Rep (further operator)) room start.entry result }
{
    let mut all = Vec::new(alloc);
    let mut rest = start;
    'turns: while comes_again(operator, rest) {
        let behind = again(operator, rest)?;
        let (relation, after) = relation(alloc, behind, room)?;
        push_relation(&mut all, relation)?;
        rest = after;
    }
    Ok((all, rest))
}

/// An expression (RM 4.4).
#[cycle(expression)]
pub fn expression(alloc: Global, start: Rest, room: u32) -> Read<Box<Expression>>
    ensures { Reads (boxed_item expression_item) (N g.Expression) room start.entry result }
{
    let (first, rest) = relation(alloc, start, room)?;
    if let Some((operator, behind)) = logical(rest) {
        let ((first, second), rest) = both(first, relation(alloc, behind, room))?;
        let others = relations(alloc, operator, rest, room);
        let ((first, (second, others)), rest) = both(first, both(second, others))?;
        return Ok((connected(alloc, operator, first, second, others)?, rest));
    }
    Ok((alone(alloc, first)?, rest))
}

/// A value behind a word or a delimiter (RM 3.3.1, 5.7).
pub fn value(alloc: Global, start: Rest, room: u32, kind: Kind) -> Read<Box<Expression>>
    ensures { (p : Phrase) → IsValue kind p →
        Reads (boxed_item expression_item) (N p) room start.entry result }
{
    let rest = word(start, kind)?;
    expression(alloc, rest, room)
}

/// The same, if the word or the delimiter comes next.
pub fn opt_value(alloc: Global, start: Rest, room: u32, kind: Kind) -> Read<Option<Expression>>
    ensures { (p : Phrase) → IsValue kind p →
        MayRead (opt_item expression_item) (Opt p) room start.entry result }
{
    if is(start, kind) {
        let (value, rest) = value(alloc, start, room, kind)?;
        return Ok((Some(Box::into_inner(value)), rest));
    }
    Ok((None, start))
}

/// An expression, if one comes next (RM 4.4).
pub fn opt_expression(alloc: Global, start: Rest, room: u32) -> Read<Option<Expression>>
    ensures { MayRead (opt_item expression_item) (Opt g.Expression) room start.entry result }
{
    if is_one_of(start, &EXPRESSIONS) {
        let (value, rest) = expression(alloc, start, room)?;
        return Ok((Some(Box::into_inner(value)), rest));
    }
    Ok((None, start))
}
