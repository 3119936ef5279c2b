// Programs (RM 10.1.1).

ghost use Rattle.aud_syntax.specs.Ties.View.{plain_unit};
ghost use Rattle.aud_grammar.specs.Grammar as g;
ghost use Rattle.aud_grammar.specs.Grammar.{N};
ghost use Rattle.aud_grammar.specs.Parsed.{parsed};
ghost use Rattle.aud_parse.specs.Ties.Items.{unit_item};
ghost use Rattle.aud_cursor.specs.Ties.Reads.{Reads};
ghost use Rattle.aud_parse.specs.Ties.Gives.{Gives};

use crate::statement::{body, opt_declarations};
use aud_cursor::clauses::context;
use aud_cursor::cursor::{Fault, Read, Rest, place, token, word};
use aud_cursor::leaf::ident;
use aud_lex::token::{Kind, Token};
use aud_syntax::tree::Unit;
use aud_text::limits::LEVELS;
use std::alloc::Global;
use thiserror::Error;

/// Why tokens are no program.
#[derive(Debug, Drop, Error)]
pub enum SyntaxFault {
    /// Where memory is refused.
    #[error("out of memory")]
    Memory,
    /// No program goes on with the token of this number, counted from 0, or ends there where it is
    /// the number of tokens.
    #[error("no program goes on with token {0}")]
    Syntax(usize),
    /// The token of this number opens a level of declarations, statements or parentheses too many.
    #[error("token {0} opens one level too many")]
    TooDeep(usize),
}

/// A main procedure, behind its context clauses (RM 6.3, 10.1.1).
fn unit(alloc: Global, start: Rest, room: u32) -> Read<Unit>
    ensures { Reads unit_item (N g.Unit) room start.entry result }
{
    let (context, rest) = context(alloc, start)?;
    let (first, rest) = token(rest, Kind::Procedure)?;
    let (name, rest) = ident(alloc, rest)?;
    let rest = word(rest, Kind::Is)?;
    let (declarations, rest) = opt_declarations(alloc, rest, room)?;
    let (body, rest) = body(alloc, rest, room)?;
    Ok((
        Unit {
            context,
            at: first.at(),
            name,
            declarations,
            body: Box::into_inner(body),
        },
        rest,
    ))
}

/// The program that the tokens spell (RM 10.1.1).
///
/// # Errors
///
/// [`SyntaxFault::Syntax`] and [`SyntaxFault::TooDeep`] name the first token that is at fault;
/// [`SyntaxFault::Memory`] is given where memory is refused.
pub fn parse(alloc: Global, tokens: &[Token]) -> Result<Unit, SyntaxFault>
    ensures { Gives plain_unit (parsed tokens.now) result }
{
    match unit(alloc, Rest { tokens }, LEVELS) {
        Ok((tree, rest)) => {
            if rest.tokens.is_empty() {
                return Ok(tree);
            }
            Err(SyntaxFault::Syntax(place(tokens, rest)))
        }
        Err(Fault::Memory) => Err(SyntaxFault::Memory),
        Err(Fault::Wrong(rest)) => Err(SyntaxFault::Syntax(place(tokens, rest))),
        Err(Fault::Deep(rest)) => Err(SyntaxFault::TooDeep(place(tokens, rest))),
    }
}
