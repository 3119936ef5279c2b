// The canonical text of expressions and names.

ghost use Rattle.std.specs.Prelude.{◌∷◌, []};
ghost use Rattle.aud_lex.specs.Why.Spaced.{word};
ghost use Rattle.aud_syntax.specs.Ties.Writes.{Writes};
ghost use Rattle.aud_syntax.specs.Ties.View.{plain_expression, plain_chain, plain_relation, plain_comparison, plain_name, plain_part, plain_maybe, plain_simple, plain_added, plain_term, plain_multiplied, plain_factor, plain_primary};
ghost use Rattle.aud_syntax.specs.Why.Printed.{sign_words, adding_spelling, multiplying_spelling, operator_words, relational_spelling, connective_words, expression_words, relation_words, connected_words, maybe_words, name_words, part_words, simple_words, added_words, term_words, multiplied_words, factor_words, primary_words, in_parentheses};

use crate::tree::{
    Added, Adding, Chain, Comparison, Connective, Expression, Factor, Highest, Multiplied,
    Multiplying, Name, NamePart, Operator, Primary, Relation, Relational, Sign, Signed, Simple,
    Term,
};
use crate::words::{push_ident, push_literal, push_number, push_two_words, push_word};
use crate::writing::Written;

#[cycle(print)]
pub fn push_in_parentheses(out: &mut Written, inner: &Expression)
    ensures { Writes out.old out.new
        (in_parentheses (expression_words (plain_expression inner.now))) }
{
    push_word(out, b"(");
    push_expression(out, inner);
    push_word(out, b")");
}

// RM 4.4
#[cycle(print)]
pub fn push_expression(out: &mut Written, expression: &Expression)
    ensures { Writes out.old out.new (expression_words (plain_expression expression.now)) }
{
    match expression {
        Expression::Alone(relation) => push_relation(out, relation),
        Expression::Connected(chain) => push_chain(out, chain),
    }
}

// A word and the expression behind it, if there is one.
pub fn push_maybe(out: &mut Written, spelling: &[u8], expression: &Option<Expression>)
    ensures { Writes out.old out.new
        (maybe_words spelling.now (plain_maybe expression.now)) }
{
    match expression {
        None => {}
        Some(expression) => {
            push_word(out, spelling);
            push_expression(out, expression);
        }
    }
}

// RM 4.4(2)
#[cycle(print)]
fn push_chain(out: &mut Written, chain: &Chain)
    ensures { Writes out.old out.new (expression_words (plain_chain chain.now)) }
{
    push_relation(out, &chain.first);
    push_connected(out, chain.connective, &chain.second);
    for next in &chain.others {
        push_connected(out, chain.connective, next);
    }
}

// A further relation behind the operator.
#[cycle(print)]
fn push_connected(out: &mut Written, connective: Connective, relation: &Relation)
    ensures { Writes out.old out.new
        (connected_words connective (plain_relation relation.now)) }
{
    push_connective(out, connective);
    push_relation(out, relation);
}

#[cycle(print)]
fn push_relation(out: &mut Written, relation: &Relation)
    ensures { Writes out.old out.new (relation_words (plain_relation relation.now)) }
{
    match relation {
        Relation::Unrelated(simple) => push_simple(out, simple),
        Relation::Related(comparison) => push_comparison(out, comparison),
    }
}

#[cycle(print)]
fn push_comparison(out: &mut Written, comparison: &Comparison)
    ensures { Writes out.old out.new (relation_words (plain_comparison comparison.now)) }
{
    push_simple(out, &comparison.left);
    push_relational(out, comparison.operator);
    push_simple(out, &comparison.right);
}

#[cycle(print)]
pub fn push_simple(out: &mut Written, simple: &Simple)
    ensures { Writes out.old out.new (simple_words (plain_simple simple.now)) }
{
    push_sign(out, simple.sign);
    push_term(out, &simple.first);
    for next in &simple.rest {
        push_added(out, next);
    }
}

#[cycle(print)]
fn push_added(out: &mut Written, added: &Added)
    ensures { Writes out.old out.new (added_words (plain_added added.now)) }
{
    push_adding(out, added.operator);
    push_term(out, &added.term);
}

#[cycle(print)]
fn push_term(out: &mut Written, term: &Term)
    ensures { Writes out.old out.new (term_words (plain_term term.now)) }
{
    push_factor(out, &term.first);
    for next in &term.rest {
        push_multiplied(out, next);
    }
}

#[cycle(print)]
fn push_multiplied(out: &mut Written, multiplied: &Multiplied)
    ensures { Writes out.old out.new (multiplied_words (plain_multiplied multiplied.now)) }
{
    push_multiplying(out, multiplied.operator);
    push_factor(out, &multiplied.factor);
}

#[cycle(print)]
fn push_factor(out: &mut Written, factor: &Factor)
    ensures { Writes out.old out.new (factor_words (plain_factor factor.now)) }
{
    push_operator(out, factor.operator);
    push_primary(out, &factor.primary);
}

#[cycle(print)]
fn push_primary(out: &mut Written, primary: &Primary)
    ensures { Writes out.old out.new (primary_words (plain_primary primary.now)) }
{
    match primary {
        Primary::Integer(number) => push_number(out, *number),
        Primary::Text(literal) => push_literal(out, literal),
        Primary::Name(name) => push_name(out, name),
        Primary::Attribute(prefix, designator, argument) => {
            push_name(out, prefix);
            push_word(out, b"'");
            push_ident(out, designator);
            match argument {
                None => {}
                Some(argument) => push_in_parentheses(out, argument),
            }
        }
        Primary::Group(_, inner) => push_in_parentheses(out, inner),
    }
}

// RM 4.1
#[cycle(print)]
pub fn push_name(out: &mut Written, name: &Name)
    ensures { Writes out.old out.new (name_words (plain_name name.now)) }
{
    push_part(out, &name.first);
    for next in &name.others {
        push_word(out, b".");
        push_part(out, next);
    }
}

// An identifier, and the arguments behind it, if there are any (RM 6.4).
#[cycle(print)]
fn push_part(out: &mut Written, part: &NamePart)
    ensures { Writes out.old out.new (part_words (plain_part part.now)) }
{
    push_ident(out, &part.ident);
    if part.args.is_empty() {
        return;
    }
    let mut before: &[u8] = b"(";
    for next in &part.args {
        push_word(out, before);
        push_expression(out, next);
        before = b",";
    }
    push_word(out, b")");
}

// RM 4.5.1
fn push_connective(out: &mut Written, connective: Connective)
    ensures { Writes out.old out.new (connective_words connective) }
{
    match connective {
        Connective::And => push_word(out, b"and"),
        Connective::Or => push_word(out, b"or"),
        Connective::Xor => push_word(out, b"xor"),
        Connective::AndThen => push_two_words(out, b"and", b"then"),
        Connective::OrElse => push_two_words(out, b"or", b"else"),
    }
}

// RM 4.5.2
fn push_relational(out: &mut Written, operator: Relational)
    ensures { Writes out.old out.new (word (relational_spelling operator) ∷ []) }
{
    match operator {
        Relational::Equal => push_word(out, b"="),
        Relational::Unequal => push_word(out, b"/="),
        Relational::Less => push_word(out, b"<"),
        Relational::AtMost => push_word(out, b"<="),
        Relational::Greater => push_word(out, b">"),
        Relational::AtLeast => push_word(out, b">="),
    }
}

// RM 4.5.4
fn push_sign(out: &mut Written, sign: Option<Signed>)
    ensures { Writes out.old out.new (sign_words sign) }
{
    let Some(signed) = sign else {
        return;
    };
    match signed.sign {
        Sign::Plus => push_word(out, b"+"),
        Sign::Minus => push_word(out, b"-"),
    }
}

// RM 4.5.3
fn push_adding(out: &mut Written, operator: Adding)
    ensures { Writes out.old out.new (word (adding_spelling operator) ∷ []) }
{
    match operator {
        Adding::Plus => push_word(out, b"+"),
        Adding::Minus => push_word(out, b"-"),
        Adding::Join => push_word(out, b"&"),
    }
}

// RM 4.5.5
fn push_multiplying(out: &mut Written, operator: Multiplying)
    ensures { Writes out.old out.new (word (multiplying_spelling operator) ∷ []) }
{
    match operator {
        Multiplying::Times => push_word(out, b"*"),
        Multiplying::Divide => push_word(out, b"/"),
        Multiplying::Modulo => push_word(out, b"mod"),
        Multiplying::Remainder => push_word(out, b"rem"),
    }
}

// RM 4.5.6
fn push_operator(out: &mut Written, operator: Option<Operator>)
    ensures { Writes out.old out.new (operator_words operator) }
{
    let Some(operator) = operator else {
        return;
    };
    match operator.highest {
        Highest::Magnitude => push_word(out, b"abs"),
        Highest::Not => push_word(out, b"not"),
    }
}
