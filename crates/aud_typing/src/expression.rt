// Expressions.

ghost use Rattle.std.specs.Prelude.{◌≡◌, IfOk};
ghost use Rattle.aud_typed.specs.Tree as tree;
ghost use Rattle.aud_syntax.specs.Ties.View.{plain_expression, plain_chain, plain_relation, plain_comparison, plain_simple, plain_added, plain_term, plain_multiplied, plain_factor, plain_primary, plain_name, plain_part};
ghost use Rattle.aud_names.specs.Resolution.{last_args};
ghost use Rattle.aud_typing.specs.Expressions.{expression_at, relation_at, simple_at, term_at, factor_at, primary_at, multiplying, adding_operator, checked_number, string, denoting, checked_name, checked_attribute, checked_expression, checked_relation, checked_simple, checked_added, checked_term, checked_multiplied, checked_factor, checked_primary, checked_arguments, checked_part, checked_prefix, further};
ghost use Rattle.aud_fault.specs.Least.{noted};
ghost use Rattle.aud_typing.specs.Ties.Typing.{plain_typed, plain_argument, operation, Shows};

use crate::attribute::attribute_value;
use crate::entity::{check_name, check_prefix, name_denotes, value_read};
use crate::typed::{Operand, Operator, Typed, highest, operation, signed};
use aud_fault::fault::Least;
use aud_names::behind::{Left, boxed};
use aud_names::names::Scope;
use aud_names::resolution::last_args;
use aud_names::rules::number_too_large;
use aud_syntax::tree::{
    Added, Adding, Chain, Comparison, Connective, Expression, Factor, Ident, Literal, Multiplied,
    Multiplying, Name, NamePart, Number, Primary, Relation, Simple, Term,
};
use aud_text::place::Pos;
use aud_typed::program::{Binary, IntegerExpression, TextExpression};
use std::alloc::Global;

/// Where a primary begins.
fn primary_at(primary: &Primary) -> Pos
    ensures { result ≡ primary_at (plain_primary primary.now) }
{
    match primary {
        Primary::Integer(number) => number.at,
        Primary::Text(literal) => literal.at,
        Primary::Name(name) => name.first.ident.at,
        Primary::Attribute(prefix, _, _) => prefix.first.ident.at,
        Primary::Group(at, _) => *at,
    }
}

fn factor_at(factor: &Factor) -> Pos
    ensures { result ≡ factor_at (plain_factor factor.now) }
{
    match &factor.operator {
        Some(operator) => operator.at,
        None => primary_at(&factor.primary),
    }
}

fn term_at(term: &Term) -> Pos
    ensures { result ≡ term_at (plain_term term.now) }
{
    factor_at(&term.first)
}

/// Where a simple expression begins: its first token.
pub fn simple_at(simple: &Simple) -> Pos
    ensures { result ≡ simple_at (plain_simple simple.now) }
{
    match &simple.sign {
        Some(sign) => sign.at,
        None => term_at(&simple.first),
    }
}

fn relation_at(relation: &Relation) -> Pos
    ensures { result ≡ relation_at (plain_relation relation.now) }
{
    match relation {
        Relation::Unrelated(simple) => simple_at(simple),
        Relation::Related(comparison) => simple_at(&comparison.left),
    }
}

/// Where an expression begins: its first token.
pub fn expression_at(expression: &Expression) -> Pos
    ensures { result ≡ expression_at (plain_expression expression.now) }
{
    match expression {
        Expression::Alone(relation) => relation_at(relation),
        Expression::Connected(chain) => relation_at(&chain.first),
    }
}

// The operator of RM 4.5.5.
fn multiplying(operator: Multiplying) -> Binary
    ensures { result ≡ multiplying operator }
{
    match operator {
        Multiplying::Times => Binary::Product,
        Multiplying::Divide => Binary::Quotient,
        Multiplying::Modulo => Binary::Modulus,
        Multiplying::Remainder => Binary::Remainder,
    }
}

// The operator of RM 4.5.3.
fn adding(operator: Adding) -> Operator
    ensures { operation result ≡ adding_operator operator }
{
    match operator {
        Adding::Plus => Operator::Arithmetic(Binary::Sum),
        Adding::Minus => Operator::Arithmetic(Binary::Difference),
        Adding::Join => Operator::Join,
    }
}

#[inline(never)]
fn checked_number(alloc: Global, number: Number, faults: &mut Least) -> Left<Typed>
    ensures { Shows result faults.old faults.new (checked_number number.value number.at) }
{
    match number.value {
        Some(value) => boxed(alloc, Typed::Number(IntegerExpression::Number(value))),
        None => {
            number_too_large(number.at, faults);
            boxed(alloc, Typed::Unknown)
        }
    }
}

// What a literal in quotes stands for.
#[inline(never)]
fn literal_value(alloc: Global, literal: &Literal) -> Left<Typed>
    ensures { IfOk result (λ b. plain_typed b.value ≡ string (tree.literal literal.now.text)) }
{
    let text = literal.text.try_clone(alloc)?;
    boxed(alloc, Typed::Text(TextExpression::Literal(text)))
}

// A name as a primary, whose last argument is typed.
#[tactic(auto, using(crate::proofs::Notes::noted_append))]
#[inline(never)]
fn name_value(name: &Name, last: Box<Typed>, scope: &Scope<'_>, faults: &mut Least) -> Left<Typed>
    ensures { Shows result faults.old faults.new
        (checked_name (denoting (plain_name name.now) (plain_typed last.value) scope.now)) }
{
    let read = name_denotes(name, last, scope, faults);
    check_name(&read.entity, read.at, faults);
    let value = value_read(scope.alloc(), read.entity)?;
    boxed(scope.alloc(), value)
}

// An attribute of what a name denotes whose last argument is typed.
#[tactic(auto, using(crate::proofs::Notes::noted_append))]
#[inline(never)]
fn name_attribute(
    name: &Name,
    last: Box<Typed>,
    designator: &Ident,
    argument: Option<Operand>,
    scope: &Scope<'_>,
    faults: &mut Least,
) -> Left<Typed>
    ensures { Shows result faults.old faults.new (checked_attribute
        (denoting (plain_name name.now) (plain_typed last.value) scope.now)
        (last_args (plain_name name.now)) designator.now (plain_argument argument) scope.now) }
{
    let prefix = name_denotes(name, last, scope, faults);
    let args = last_args(name);
    let typed = attribute_value(prefix, args, designator, argument, scope, faults)?;
    boxed(scope.alloc(), typed)
}

// The arguments of a part of a name: the last of them, and where there is none what was the last before.
#[cycle(expression)]
fn part_arguments(
    part: &NamePart,
    before: Box<Typed>,
    scope: &Scope<'_>,
    faults: &mut Least,
) -> Left<Typed>
    ensures { Shows result faults.old faults.new
        (checked_part (plain_part part.now) scope.now (plain_typed before.value)) }
{
    let mut last = before;
    for argument in &part.args {
        drop(last);
        last = expression(argument, scope, faults)?;
    }
    Ok(last)
}

/// Checks the arguments of a name: notes their faults, also where none may stand, and answers what the last of them is.
#[cycle(expression)]
pub fn arguments(name: &Name, scope: &Scope<'_>, faults: &mut Least) -> Left<Typed>
    ensures { Shows result faults.old faults.new
        (checked_arguments (plain_name name.now) scope.now) }
{
    let nothing = boxed(scope.alloc(), Typed::Unknown)?;
    let mut last = part_arguments(&name.first, nothing, scope, faults)?;
    check_prefix(&name.first, &name.others, &last, scope, faults);
    for part in &name.others {
        last = part_arguments(part, last, scope, faults)?;
    }
    Ok(last)
}

/// Checks the arguments before a name's first point: notes their faults, and answers what the last of them is.
pub fn prefix(name: &Name, scope: &Scope<'_>, faults: &mut Least) -> Left<Typed>
    ensures { Shows result faults.old faults.new (checked_prefix (plain_name name.now) scope.now) }
{
    let nothing = boxed(scope.alloc(), Typed::Unknown)?;
    let last = part_arguments(&name.first, nothing, scope, faults)?;
    check_prefix(&name.first, &name.others, &last, scope, faults);
    Ok(last)
}

#[cycle(expression)]
fn primary(primary: &Primary, scope: &Scope<'_>, faults: &mut Least) -> Left<Typed>
    ensures { Shows result faults.old faults.new
        (checked_primary (plain_primary primary.now) scope.now) }
{
    match primary {
        Primary::Integer(number) => checked_number(scope.alloc(), *number, faults),
        Primary::Text(literal) => literal_value(scope.alloc(), literal),
        Primary::Name(name) => {
            let last = arguments(name, scope, faults)?;
            name_value(name, last, scope, faults)
        }
        Primary::Attribute(prefix, designator, argument) => {
            let last = arguments(prefix, scope, faults)?;
            match argument {
                None => name_attribute(prefix, last, designator, None, scope, faults),
                Some(e) => {
                    let typed = expression(e, scope, faults)?;
                    let at = expression_at(e);
                    let argument = Some(Operand { at, typed });
                    name_attribute(prefix, last, designator, argument, scope, faults)
                }
            }
        }
        Primary::Group(_, e) => expression(e, scope, faults),
    }
}

#[cycle(expression)]
fn factor(factor: &Factor, scope: &Scope<'_>, faults: &mut Least) -> Left<Typed>
    ensures { Shows result faults.old faults.new
        (checked_factor (plain_factor factor.now) scope.now) }
{
    let typed = primary(&factor.primary, scope, faults)?;
    match &factor.operator {
        None => Ok(typed),
        Some(operator) => {
            let at = primary_at(&factor.primary);
            highest(
                scope.alloc(),
                operator.highest,
                Operand { at, typed },
                faults,
            )
        }
    }
}

#[cycle(expression)]
fn multiplied(
    multiplied: &Multiplied,
    scope: &Scope<'_>,
    left: Operand,
    faults: &mut Least,
) -> Left<Typed>
    ensures { Shows result faults.old faults.new
        (checked_multiplied (plain_multiplied multiplied.now) scope.now
        left.at (plain_typed left.typed.value)) }
{
    let typed = factor(&multiplied.factor, scope, faults)?;
    let at = factor_at(&multiplied.factor);
    let operator = Operator::Arithmetic(multiplying(multiplied.operator));
    operation(scope.alloc(), operator, left, Operand { at, typed }, faults)
}

#[cycle(expression)]
fn term(term: &Term, scope: &Scope<'_>, faults: &mut Least) -> Left<Typed>
    ensures { Shows result faults.old faults.new (checked_term (plain_term term.now) scope.now) }
{
    let at = term_at(term);
    let mut typed = factor(&term.first, scope, faults)?;
    for next in &term.rest {
        let left = Operand { at, typed };
        typed = multiplied(next, scope, left, faults)?;
    }
    Ok(typed)
}

#[cycle(expression)]
fn added(added: &Added, scope: &Scope<'_>, left: Operand, faults: &mut Least) -> Left<Typed>
    ensures { Shows result faults.old faults.new
        (checked_added (plain_added added.now) scope.now
        left.at (plain_typed left.typed.value)) }
{
    let typed = term(&added.term, scope, faults)?;
    let at = term_at(&added.term);
    let operator = adding(added.operator);
    operation(scope.alloc(), operator, left, Operand { at, typed }, faults)
}

/// Checks a simple expression (RM 4.4): notes its faults, and answers what is left of it.
#[cycle(expression)]
pub fn simple(e: &Simple, scope: &Scope<'_>, faults: &mut Least) -> Left<Typed>
    ensures { Shows result faults.old faults.new (checked_simple (plain_simple e.now) scope.now) }
{
    let typed = term(&e.first, scope, faults)?;
    let at = term_at(&e.first);
    let mut typed = signed(scope.alloc(), e.sign, Operand { at, typed }, faults)?;
    let at = simple_at(e);
    for next in &e.rest {
        let left = Operand { at, typed };
        typed = added(next, scope, left, faults)?;
    }
    Ok(typed)
}

#[cycle(expression)]
fn relation(relation: &Relation, scope: &Scope<'_>, faults: &mut Least) -> Left<Typed>
    ensures { Shows result faults.old faults.new
        (checked_relation (plain_relation relation.now) scope.now) }
{
    match relation {
        Relation::Unrelated(e) => simple(e, scope, faults),
        Relation::Related(both) => comparison(both, scope, faults),
    }
}

#[cycle(expression)]
fn comparison(comparison: &Comparison, scope: &Scope<'_>, faults: &mut Least) -> Left<Typed>
    ensures { Shows result faults.old faults.new
        (checked_relation (plain_comparison comparison.now) scope.now) }
{
    let typed = simple(&comparison.left, scope, faults)?;
    let at = simple_at(&comparison.left);
    let left = Operand { at, typed };
    let typed = simple(&comparison.right, scope, faults)?;
    let at = simple_at(&comparison.right);
    let right = Operand { at, typed };
    let operator = Operator::Relation(comparison.operator);
    operation(scope.alloc(), operator, left, right, faults)
}

// A relation behind an operator, and what stands before it.
#[cycle(expression)]
fn further(
    connective: Connective,
    next: &Relation,
    scope: &Scope<'_>,
    left: Operand,
    faults: &mut Least,
) -> Left<Typed>
    ensures { Shows result faults.old faults.new
        (further connective left.at (plain_typed left.typed.value)
        (relation_at (plain_relation next.now))
        (checked_relation (plain_relation next.now) scope.now)) }
{
    let typed = relation(next, scope, faults)?;
    let at = relation_at(next);
    let operator = Operator::Connective(connective);
    operation(scope.alloc(), operator, left, Operand { at, typed }, faults)
}

#[cycle(expression)]
fn chain(chain: &Chain, scope: &Scope<'_>, faults: &mut Least) -> Left<Typed>
    ensures { Shows result faults.old faults.new
        (checked_expression (plain_chain chain.now) scope.now) }
{
    let at = relation_at(&chain.first);
    let typed = relation(&chain.first, scope, faults)?;
    let first = Operand { at, typed };
    let mut typed = further(chain.connective, &chain.second, scope, first, faults)?;
    for next in &chain.others {
        let left = Operand { at, typed };
        typed = further(chain.connective, next, scope, left, faults)?;
    }
    Ok(typed)
}

/// Checks an expression (RM 4.4): notes its faults, and answers with its type what is left of it.
#[cycle(expression)]
pub fn expression(e: &Expression, scope: &Scope<'_>, faults: &mut Least) -> Left<Typed>
    ensures { Shows result faults.old faults.new
        (checked_expression (plain_expression e.now) scope.now) }
{
    match e {
        Expression::Alone(alone) => relation(alone, scope, faults),
        Expression::Connected(relations) => chain(relations, scope, faults),
    }
}
