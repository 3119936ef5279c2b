// Delays (RM 9.6).

ghost use Rattle.std.specs.Prelude.{◌∷◌, []};
ghost use Rattle.aud_grammar.specs.Grammar as g;
ghost use Rattle.aud_grammar.specs.Grammar.{N};
ghost use Rattle.aud_grammar.specs.Actions.{token, made};
ghost use Rattle.aud_parse.specs.Ties.Items.{boxed_delay_item, boxed_statement_item};
ghost use Rattle.aud_cursor.specs.Ties.Reads.{Reads, Completes};

use crate::build_select::{delaying_of, made_duration, made_seconds};
use aud_cursor::behind::ended;
use aud_cursor::cursor::{Read, Rest, duration, is, token};
use aud_cursor::leaf::real_of;
use aud_lex::token::{Kind, Token};
use aud_parse_expr::expression::parens;
use aud_syntax::tree::{Delay, Statement};
use std::alloc::Global;

/// For how long a delay is, behind its first word.
fn delay_time<'a>(alloc: Global, begin: &Token, start: Rest<'a>, room: u32) -> Read<'a, Box<Delay>>
    ensures { Completes (λ es. made g.Delay (token begin.now ∷ es)) boxed_delay_item
        (N g.DelayTime ∷ []) room start.entry result }
{
    if is(start, Kind::Real) {
        let (t, rest) = token(start, Kind::Real)?;
        let delay = made_seconds(alloc, begin.at(), real_of(t))?;
        return Ok((delay, rest));
    }
    let (named, rest) = duration(start)?;
    let (value, rest) = parens(alloc, rest, room)?;
    let delay = made_duration(alloc, begin.at(), named.at(), value.1)?;
    Ok((delay, rest))
}

/// A delay.
#[inline(never)]
pub fn delay(alloc: Global, start: Rest, room: u32) -> Read<Box<Delay>>
    ensures { Reads boxed_delay_item (N g.Delay) room start.entry result }
{
    let (begin, rest) = token(start, Kind::Delay)?;
    let (delay, rest) = delay_time(alloc, begin, rest, room)?;
    ended(delay, rest, Kind::Semicolon)
}

/// A delay, as a statement.
#[inline(never)]
pub fn delay_statement(alloc: Global, start: Rest, room: u32) -> Read<Box<Statement>>
    ensures { Reads boxed_statement_item (N g.DelayStatement) room start.entry result }
{
    let (delay, rest) = delay(alloc, start, room)?;
    let statement = delaying_of(alloc, delay)?;
    Ok((statement, rest))
}
