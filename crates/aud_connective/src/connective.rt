// Logical operators and short-circuit control forms (RM 4.5.1).

ghost use Rattle.std.specs.Prelude.{◌≡◌, ◌∷◌, []};
ghost use Rattle.aud_grammar.specs.First.{next_in, firsts};
ghost use Rattle.aud_connective.specs.Ties.Connects.{further, Connects, Reconnects};

use aud_cursor::cursor::{Fault, Rest, accept, is, word};
use aud_lex::token::Kind;
use aud_syntax::tree::Connective;

/// A logical operator or short-circuit control form, if one comes next (RM 4.5.1).
pub fn logical(start: Rest) -> Option<(Connective, Rest)>
    ensures { Connects start.entry result }
{
    if let Some((_, rest)) = accept(start, Kind::And) {
        if let Some((_, behind)) = accept(rest, Kind::Then) {
            return Some((Connective::AndThen, behind));
        }
        return Some((Connective::And, rest));
    }
    if let Some((_, rest)) = accept(start, Kind::Or) {
        if let Some((_, behind)) = accept(rest, Kind::Else) {
            return Some((Connective::OrElse, behind));
        }
        return Some((Connective::Or, rest));
    }
    if let Some((_, rest)) = accept(start, Kind::Xor) {
        return Some((Connective::Xor, rest));
    }
    None
}

/// The word with which a logical operator or short-circuit control form begins.
fn first_word(operator: Connective) -> Kind
    ensures { firsts (further operator) ≡ result ∷ [] }
{
    match operator {
        Connective::And | Connective::AndThen => Kind::And,
        Connective::Or | Connective::OrElse => Kind::Or,
        Connective::Xor => Kind::Xor,
    }
}

/// Whether the word comes next with which the same operator begins.
pub fn comes_again(operator: Connective, start: Rest) -> bool
    ensures { result ≡ next_in (firsts (further operator)) start.entry.tokens.now }
{
    is(start, first_word(operator))
}

/// Passes the same operator once more.
pub fn again(operator: Connective, start: Rest) -> Result<Rest, Fault>
    ensures { Reconnects operator start.entry result }
{
    let rest = word(start, first_word(operator))?;
    match operator {
        Connective::AndThen => word(rest, Kind::Then),
        Connective::OrElse => word(rest, Kind::Else),
        Connective::And | Connective::Or | Connective::Xor => Ok(rest),
    }
}
