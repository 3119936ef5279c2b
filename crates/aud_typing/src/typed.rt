// Expressions with their types, and the rules on operands.

ghost use Rattle.std.specs.Prelude.{◌≡◌, [], ◌∷◌, ◌++◌, IfOk};
ghost use Rattle.aud_typed.specs.Tree.{binary, join};
ghost use Rattle.aud_typed.specs.declared.program.Operation.{out-Operation};
ghost use Rattle.aud_typed.specs.Ties.View.{plain_integer, plain_boolean, plain_text, connected};
ghost use Rattle.aud_fault.specs.Least.{noted};
ghost use Rattle.aud_typing.specs.Expressions.{unknown, base_of, wants, combined, joined, one, integer_only, negated, relation_of, compared, related_to, operand_faults, both, stored, signed, highest};
ghost use Rattle.aud_typing.specs.Ties.Typing.{plain_typed, typed_connective, operation, Shows};

use aud_fault::fault::Least;
use aud_names::behind::{Left, Made, boxed};
use aud_names::rules::{Base, right_type};
use aud_syntax::tree::{Connective, Highest, Relational, Sign, Signed};
use aud_text::place::Pos;
use aud_typed::program::{
    Binary, BooleanExpression, Connective as TypedConnective, IntegerExpression, Logical,
    Operation, Relation, Subtype, TextExpression, Unary, Variable,
};
use std::alloc::Global;

/// An expression with its type. Nothing is known of the type of a faulty one.
#[derive(Drop)]
pub enum Typed {
    Number(IntegerExpression),
    Truth(BooleanExpression),
    Text(TextExpression),
    Unknown,
}

/// An expression that is checked, and where it begins.
pub struct Operand {
    pub at: Pos,
    pub typed: Box<Typed>,
}

// One call wherever it is dropped.
impl Drop for Operand {
    fn drop(self) {
        let Operand { at: _, typed: _ } = self;
    }
}

impl Operand {
    /// The expression.
    pub fn into_typed(self) -> Box<Typed>
        ensures { result ≡ self.typed }
    {
        let Operand { at: _, typed } = self;
        typed
    }

    /// The expression, out of its box.
    pub fn opened(self) -> Typed
        ensures { result ≡ self.typed.value }
    {
        Box::into_inner(self.into_typed())
    }
}

/// An operator on two operands (RM 4.5).
#[derive(Clone, Copy)]
pub enum Operator {
    Arithmetic(Binary),
    Join,
    Relation(Relational),
    Connective(Connective),
}

/// The type of an expression, where it is known.
pub fn base_of(typed: &Typed) -> Option<Base>
    ensures { result ≡ base_of (plain_typed typed.now) }
{
    match typed {
        Typed::Number(_) => Some(Base::Whole),
        Typed::Truth(_) => Some(Base::Truth),
        Typed::Text(_) => Some(Base::Text),
        Typed::Unknown => None,
    }
}

/// What is left of what has not the right type: nothing is known of it. It is dropped by one call, and not by its parts' drops at
/// each place.
pub fn unknown<T: Drop>(wrong: T) -> Typed
    ensures { plain_typed result ≡ unknown }
{
    drop(wrong);
    Typed::Unknown
}

// Two expressions in boxes.
fn both_boxed<T: Drop>(alloc: Global, left: T, right: T) -> Made<(Box<T>, Box<T>)>
    ensures { IfOk result (λ boxes. (boxes.0.value ≡ left) × (boxes.1.value ≡ right)) }
{
    let left = Box::new(alloc, left)?;
    let right = Box::new(alloc, right)?;
    Ok((left, right))
}

/// The value of a variable or constant.
pub fn stored(variable: Variable, subtype: Option<Subtype>) -> Typed
    ensures { plain_typed result ≡ stored variable subtype }
{
    match subtype {
        None => Typed::Unknown,
        Some(Subtype::Integer | Subtype::Natural | Subtype::Positive) => {
            Typed::Number(IntegerExpression::Variable(variable))
        }
        Some(Subtype::Boolean) => Typed::Truth(BooleanExpression::Variable(variable)),
    }
}

/// Notes where an expression that must be of a type has another one.
pub fn wants(base: Base, at: Pos, typed: &Typed, faults: &mut Least)
    ensures { faults.new ≡ noted faults.old (wants base at (plain_typed typed.now)) }
{
    right_type(Some(base), at, base_of(typed), faults);
}

// The parts of a chain that begins: what stands first, and one that follows.
fn begun<T: Drop, N: Drop>(alloc: Global, first: T, next: N) -> Made<(Box<T>, Vec<N>)>
    ensures first { IfOk result (λ parts. parts.0.value ≡ first) }
    ensures next { IfOk result (λ parts. parts.1.items ≡ next ∷ []) }
{
    let mut rest = Vec::new(alloc);
    rest.push(next)?;
    let first = Box::new(alloc, first)?;
    Ok((first, rest))
}

// A chain that goes on.
fn longer<N: Drop>(rest: Vec<N>, next: N) -> Made<Vec<N>>
    ensures { IfOk result (λ all. all.items ≡ rest.items ++ next ∷ []) }
{
    let mut all = rest;
    all.push(next)?;
    Ok(all)
}

// The operation goes on the operand's chain, or begins one.
fn with_operation(
    alloc: Global,
    left: IntegerExpression,
    next: Operation,
) -> Made<IntegerExpression>
    ensures { let operation = out-Operation next in
        IfOk result (λ value. plain_integer value
        ≡ binary operation.operator (plain_integer left) (plain_integer operation.right)) }
{
    match left {
        IntegerExpression::Chain(first, rest) => {
            let rest = longer(rest, next)?;
            Ok(IntegerExpression::Chain(first, rest))
        }
        first => {
            let (first, rest) = begun(alloc, first, next)?;
            Ok(IntegerExpression::Chain(first, rest))
        }
    }
}

fn combined(alloc: Global, operator: Binary, left: Operand, right: Operand) -> Made<Typed>
    ensures { IfOk result (λ typed. plain_typed typed
        ≡ combined operator (plain_typed left.typed.value) (plain_typed right.typed.value)) }
{
    match left.opened() {
        Typed::Number(left) => match right.opened() {
            Typed::Number(right) => {
                let value = with_operation(alloc, left, Operation { operator, right })?;
                Ok(Typed::Number(value))
            }
            other => Ok(unknown((left, other))),
        },
        other => Ok(unknown((other, right))),
    }
}

/// A text, and another one that follows it.
pub fn with_text(alloc: Global, left: TextExpression, next: TextExpression) -> Made<TextExpression>
    ensures { IfOk result (λ text. plain_text text ≡ join (plain_text left) (plain_text next)) }
{
    match left {
        TextExpression::Join(first, rest) => Ok(TextExpression::Join(first, longer(rest, next)?)),
        first => {
            let (first, rest) = begun(alloc, first, next)?;
            Ok(TextExpression::Join(first, rest))
        }
    }
}

fn joined(alloc: Global, left: Operand, right: Operand) -> Made<Typed>
    ensures { IfOk result (λ typed. plain_typed typed
        ≡ joined (plain_typed left.typed.value) (plain_typed right.typed.value)) }
{
    match left.opened() {
        Typed::Text(left) => match right.opened() {
            Typed::Text(right) => {
                let text = with_text(alloc, left, right)?;
                Ok(Typed::Text(text))
            }
            other => Ok(unknown((left, other))),
        },
        other => Ok(unknown((other, right))),
    }
}

fn one(alloc: Global, operator: Unary, operand: Typed) -> Made<Typed>
    ensures { IfOk result (λ typed. plain_typed typed ≡ one operator (plain_typed operand)) }
{
    match operand {
        Typed::Number(x) => {
            let x = Box::new(alloc, x)?;
            Ok(Typed::Number(IntegerExpression::Unary(operator, x)))
        }
        other => Ok(unknown(other)),
    }
}

fn integer_only(typed: Typed) -> Typed
    ensures { plain_typed result ≡ integer_only (plain_typed typed) }
{
    match typed {
        Typed::Number(x) => Typed::Number(x),
        other => unknown(other),
    }
}

fn negated(alloc: Global, operand: Typed) -> Made<Typed>
    ensures { IfOk result (λ typed. plain_typed typed ≡ negated (plain_typed operand)) }
{
    match operand {
        Typed::Truth(x) => {
            let x = Box::new(alloc, x)?;
            Ok(Typed::Truth(BooleanExpression::Not(x)))
        }
        other => Ok(unknown(other)),
    }
}

/// The sign before a first term (RM 4.5.4).
#[inline(never)]
pub fn signed(
    alloc: Global,
    sign: Option<Signed>,
    operand: Operand,
    faults: &mut Least,
) -> Left<Typed>
    ensures { Shows result faults.old faults.new
        (signed sign operand.at (plain_typed operand.typed.value)) }
{
    let Some(signed) = sign else {
        return Ok(operand.into_typed());
    };
    wants(Base::Whole, operand.at, &operand.typed, faults);
    let typed = match signed.sign {
        Sign::Plus => integer_only(operand.opened()),
        Sign::Minus => one(alloc, Unary::Negative, operand.opened())?,
    };
    boxed(alloc, typed)
}

/// An operator before a primary (RM 4.5.6).
#[inline(never)]
pub fn highest(alloc: Global, prefix: Highest, operand: Operand, faults: &mut Least) -> Left<Typed>
    ensures { Shows result faults.old faults.new
        (highest prefix operand.at (plain_typed operand.typed.value)) }
{
    let typed = match prefix {
        Highest::Magnitude => {
            wants(Base::Whole, operand.at, &operand.typed, faults);
            one(alloc, Unary::Magnitude, operand.opened())?
        }
        Highest::Not => {
            wants(Base::Truth, operand.at, &operand.typed, faults);
            negated(alloc, operand.opened())?
        }
    };
    boxed(alloc, typed)
}

fn relation_of(operator: Relational) -> Relation
    ensures { result ≡ relation_of operator }
{
    match operator {
        Relational::Equal => Relation::Equal,
        Relational::Unequal => Relation::Unequal,
        Relational::Less => Relation::Less,
        Relational::AtMost => Relation::AtMost,
        Relational::Greater => Relation::Greater,
        Relational::AtLeast => Relation::AtLeast,
    }
}

fn compared(alloc: Global, operator: Relational, left: Operand, right: Operand) -> Made<Typed>
    ensures { IfOk result (λ typed. plain_typed typed
        ≡ compared operator (plain_typed left.typed.value) (plain_typed right.typed.value)) }
{
    let relation = relation_of(operator);
    match left.opened() {
        Typed::Number(left) => Ok(related_to(relation, left, right.opened())),
        Typed::Truth(left) => match right.opened() {
            Typed::Truth(right) => {
                let (left, right) = both_boxed(alloc, left, right)?;
                Ok(Typed::Truth(BooleanExpression::Comparison(relation, left, right)))
            }
            other => Ok(unknown((left, other))),
        },
        other => Ok(unknown((other, right))),
    }
}

// An Integer that is compared.
fn related_to(relation: Relation, left: IntegerExpression, right: Typed) -> Typed
    ensures { plain_typed result
        ≡ related_to relation (plain_integer left) (plain_typed right) }
{
    match right {
        Typed::Number(right) => Typed::Truth(BooleanExpression::Relation(relation, left, right)),
        other => unknown((left, other)),
    }
}

fn typed_connective(connective: Connective) -> TypedConnective
    ensures { result ≡ typed_connective connective }
{
    match connective {
        Connective::And => TypedConnective::Logical(Logical::And),
        Connective::Or => TypedConnective::Logical(Logical::Or),
        Connective::Xor => TypedConnective::Logical(Logical::Xor),
        Connective::AndThen => TypedConnective::AndThen,
        Connective::OrElse => TypedConnective::OrElse,
    }
}

// The operand goes on the chain of the same operator before it, or begins one.
fn with_operand(
    alloc: Global,
    connective: TypedConnective,
    left: BooleanExpression,
    next: BooleanExpression,
) -> Made<BooleanExpression>
    ensures { IfOk result (λ value. plain_boolean value
        ≡ connected connective (plain_boolean left) (plain_boolean next)) }
{
    match left {
        BooleanExpression::Chain(own, first, rest) => {
            if own == connective {
                let rest = longer(rest, next)?;
                return Ok(BooleanExpression::Chain(own, first, rest));
            }
            let left = BooleanExpression::Chain(own, first, rest);
            let (first, rest) = begun(alloc, left, next)?;
            Ok(BooleanExpression::Chain(connective, first, rest))
        }
        left => {
            let (first, rest) = begun(alloc, left, next)?;
            Ok(BooleanExpression::Chain(connective, first, rest))
        }
    }
}

fn both(alloc: Global, connective: Connective, left: Operand, right: Operand) -> Made<Typed>
    ensures { IfOk result (λ typed. plain_typed typed
        ≡ both connective (plain_typed left.typed.value) (plain_typed right.typed.value)) }
{
    let connective = typed_connective(connective);
    match left.opened() {
        Typed::Truth(left) => match right.opened() {
            Typed::Truth(right) => {
                let value = with_operand(alloc, connective, left, right)?;
                Ok(Typed::Truth(value))
            }
            other => Ok(unknown((left, other))),
        },
        other => Ok(unknown((other, right))),
    }
}

// Notes where an operand of two has not the type that both must have.
#[tactic(auto, using(crate::proofs::Notes::noted_append))]
fn both_want(base: Base, left: &Operand, right: &Operand, faults: &mut Least)
    ensures { faults.new ≡ noted faults.old
        (wants base left.now.at (plain_typed left.now.typed.value)
        ++ wants base right.now.at (plain_typed right.now.typed.value)) }
{
    wants(base, left.at, &left.typed, faults);
    wants(base, right.at, &right.typed, faults);
}

// Notes where the right operand has not the type of the left one, or that is a text.
fn check_related(left: &Operand, right: &Operand, faults: &mut Least)
    ensures { faults.new ≡ noted faults.old
        (operand_faults left.now.at (base_of (plain_typed left.now.typed.value))
        right.now.at (base_of (plain_typed right.now.typed.value))) }
{
    let base = base_of(&left.typed);
    match base {
        Some(Base::Text) => right_type(Some(Base::Whole), left.at, base, faults),
        _ => right_type(base, right.at, base_of(&right.typed), faults),
    }
}

// Notes where the operands have not the types that the operator asks for.
fn check_operands(operator: Operator, left: &Operand, right: &Operand, faults: &mut Least)
    ensures { faults.new ≡ noted faults.old
        (operation operator left.now.at (plain_typed left.now.typed.value)
        right.now.at (plain_typed right.now.typed.value)).faults }
{
    match operator {
        Operator::Arithmetic(_) => both_want(Base::Whole, left, right, faults),
        Operator::Join => both_want(Base::Text, left, right, faults),
        Operator::Relation(_) => check_related(left, right, faults),
        Operator::Connective(_) => both_want(Base::Truth, left, right, faults),
    }
}

// What is left of an operator and its operands.
fn put_together(alloc: Global, operator: Operator, left: Operand, right: Operand) -> Made<Typed>
    ensures { IfOk result (λ typed. plain_typed typed
        ≡ (operation operator left.at (plain_typed left.typed.value)
        right.at (plain_typed right.typed.value)).typed) }
{
    match operator {
        Operator::Arithmetic(operator) => combined(alloc, operator, left, right),
        Operator::Join => joined(alloc, left, right),
        Operator::Relation(operator) => compared(alloc, operator, left, right),
        Operator::Connective(connective) => both(alloc, connective, left, right),
    }
}

/// An operator between its operands.
#[inline(never)]
pub fn operation(
    alloc: Global,
    operator: Operator,
    left: Operand,
    right: Operand,
    faults: &mut Least,
) -> Left<Typed>
    ensures { Shows result faults.old faults.new
        (operation operator left.at (plain_typed left.typed.value)
        right.at (plain_typed right.typed.value)) }
{
    check_operands(operator, &left, &right, faults);
    let typed = put_together(alloc, operator, left, right)?;
    boxed(alloc, typed)
}
