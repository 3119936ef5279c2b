// How formal parameters are passed (RM 6.1).

ghost use Rattle.std.specs.Prelude.{◌≡◌};
ghost use Rattle.aud_grammar.specs.Grammar as g;
ghost use Rattle.aud_grammar.specs.Grammar.{Opt};
ghost use Rattle.aud_grammar.specs.Actions.{in_mode};
ghost use Rattle.aud_cursor.specs.Ties.Items.{mode_item};
ghost use Rattle.aud_cursor.specs.Ties.Reads.{TakesAny};

use crate::cursor::{Rest, accept};
use crate::leaf::mark;
use aud_lex::token::Kind;
use aud_syntax::tree::Mode;
use aud_text::place::Pos;

// The mode that begins with `in`, by whether `out` stands behind that.
fn in_mode(at: Pos, out: bool) -> Mode
    ensures { result ≡ in_mode at out }
{
    if out {
        return Mode::InOut(at);
    }
    Mode::In(at)
}

/// How formal parameters are passed, if that is written (RM 6.1).
pub fn opt_mode(start: Rest) -> (Mode, Rest)
    ensures { TakesAny mode_item (Opt g.Mode) start.entry result }
{
    if let Some((t, behind)) = accept(start, Kind::In) {
        let (out, rest) = mark(behind, Kind::Out);
        return (in_mode(t.at(), out), rest);
    }
    if let Some((t, behind)) = accept(start, Kind::Out) {
        return (Mode::Out(t.at()), behind);
    }
    (Mode::Unstated, start)
}
