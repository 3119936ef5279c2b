// Trees that are put together from boxes.
//
// The functions of the cycle of expressions hand larger trees on in boxes, and put them together here.
// These functions are not inlined, so no such tree stands in the stack frames of each level.

ghost use Rattle.std.specs.Prelude.{◌≡◌, ◌++◌, ◌∷◌, [], IfOk, OnOk};
ghost use Rattle.aud_syntax.specs.Plain as m;
ghost use Rattle.aud_syntax.specs.Ties.View.{plain_factor, plain_term};
ghost use Rattle.aud_grammar.specs.Grammar as g;
ghost use Rattle.aud_grammar.specs.Actions.{none, a_sign, a_relational, a_multiplied, an_added, chained, made};
ghost use Rattle.aud_cursor.specs.Ties.Items.{vec_item, opt_item, boxed_item};
ghost use Rattle.aud_parse_expr.specs.Ties.Items.{factor_item, multiplied_item, term_item, added_item, simple_item, relation_item, expression_item};
ghost use Rattle.aud_parse_expr.specs.Ties.Makes.{Makes, Pushes};

use aud_syntax::tree::{
    Added, Adding, Chain, Comparison, Connective, Expression, Factor, Multiplied, Multiplying,
    Relation, Relational, Signed, Simple, Term,
};
use std::alloc::{AllocError, Global};

/// A tree in a box. Where memory is refused, `Box::new` gives the tree back; here that is of any type, so what drops it
/// is one call.
#[inline(never)]
pub fn boxed<T: Drop>(alloc: Global, tree: T) -> Result<Box<T>, AllocError>
    ensures { IfOk result (λ b. b.value ≡ tree) }
{
    Ok(Box::new(alloc, tree)?)
}

/// Pushes a tree, as the same.
#[inline(never)]
pub fn push_tree<T: Drop>(all: &mut Vec<T>, tree: T) -> Result<(), AllocError>
    ensures { OnOk result (all.new.items ≡ all.old.items ++ tree ∷ []) }
{
    all.push(tree)?;
    Ok(())
}

/// Pushes a further factor.
#[inline(never)]
pub fn push_multiplied(
    all: &mut Vec<Multiplied>,
    operator: Multiplying,
    factor: Box<Factor>,
) -> Result<(), AllocError>
    ensures { Pushes multiplied_item
        (a_multiplied (m.multiplied operator (plain_factor factor.value)))
        all.old.items all.new.items result }
{
    let factor = Box::into_inner(factor);
    push_tree(all, Multiplied { operator, factor })?;
    Ok(())
}

/// A term.
#[inline(never)]
pub fn product(
    alloc: Global,
    first: Box<Factor>,
    rest: Vec<Multiplied>,
) -> Result<Box<Term>, AllocError>
    ensures { Makes term_item g.Term
        (boxed_item factor_item first ∷ vec_item multiplied_item rest ∷ []) result }
{
    let first = Box::into_inner(first);
    Ok(boxed(alloc, Term { first, rest })?)
}

/// Pushes a further term.
#[inline(never)]
pub fn push_added(all: &mut Vec<Added>, operator: Adding, term: Box<Term>) -> Result<(), AllocError>
    ensures { Pushes added_item (an_added (m.added operator (plain_term term.value)))
        all.old.items all.new.items result }
{
    let term = Box::into_inner(term);
    push_tree(all, Added { operator, term })?;
    Ok(())
}

/// A simple expression.
#[inline(never)]
pub fn sum(
    alloc: Global,
    sign: Option<Signed>,
    first: Box<Term>,
    rest: Vec<Added>,
) -> Result<Box<Simple>, AllocError>
    ensures { Makes simple_item g.Simple
        (opt_item a_sign sign ∷ boxed_item term_item first ∷ vec_item added_item rest ∷ []) result }
{
    let first = Box::into_inner(first);
    Ok(boxed(alloc, Simple { sign, first, rest })?)
}

/// A relation of one operand.
#[inline(never)]
pub fn unrelated(alloc: Global, operand: Box<Simple>) -> Result<Box<Relation>, AllocError>
    ensures { Makes relation_item g.Relation (boxed_item simple_item operand ∷ none ∷ []) result }
{
    let operand = Box::into_inner(operand);
    Ok(boxed(alloc, Relation::Unrelated(operand))?)
}

/// A relation of two operands.
#[inline(never)]
pub fn related(
    alloc: Global,
    operator: Relational,
    left: Box<Simple>,
    right: Box<Simple>,
) -> Result<Box<Relation>, AllocError>
    ensures { Makes relation_item g.Relation (boxed_item simple_item left
        ∷ made g.Compared (a_relational operator ∷ boxed_item simple_item right ∷ [])) result }
{
    let comparison = Comparison {
        operator,
        left: Box::into_inner(left),
        right: Box::into_inner(right),
    };
    let comparison = boxed(alloc, comparison)?;
    Ok(boxed(alloc, Relation::Related(comparison))?)
}

/// Pushes a further relation.
#[inline(never)]
pub fn push_relation(all: &mut Vec<Relation>, relation: Box<Relation>) -> Result<(), AllocError>
    ensures { Pushes relation_item (boxed_item relation_item relation)
        all.old.items all.new.items result }
{
    push_tree(all, Box::into_inner(relation))?;
    Ok(())
}

/// An expression of one relation.
#[inline(never)]
pub fn alone(alloc: Global, relation: Box<Relation>) -> Result<Box<Expression>, AllocError>
    ensures { Makes expression_item g.Expression
        (boxed_item relation_item relation ∷ none ∷ []) result }
{
    let relation = Box::into_inner(relation);
    Ok(boxed(alloc, Expression::Alone(relation))?)
}

/// An expression of several relations.
#[inline(never)]
pub fn connected(
    alloc: Global,
    connective: Connective,
    first: Box<Relation>,
    second: Box<Relation>,
    others: Vec<Relation>,
) -> Result<Box<Expression>, AllocError>
    ensures { Makes expression_item g.Expression
        (boxed_item relation_item first ∷ chained connective
        (boxed_item relation_item second ∷ vec_item relation_item others ∷ [])) result }
{
    let chain = Chain {
        connective,
        first: Box::into_inner(first),
        second: Box::into_inner(second),
        others,
    };
    let chain = boxed(alloc, chain)?;
    Ok(boxed(alloc, Expression::Connected(chain))?)
}
