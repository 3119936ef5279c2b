// What stands in bodies beside statements.

ghost use Rattle.std.specs.Prelude.{◌≡◌, ◌∷◌, [], map, length, IfOk};
ghost use Rattle.aud_typed.specs.Ties.View.{handlers_in};
ghost use Rattle.aud_code.specs.View.{plain_guard, plain_way};
ghost use Rattle.aud_layout.specs.Layout.{guards_of_by, ways_count};
ghost use Rattle.aud_layout.specs.Written.{flat_step};
ghost use Rattle.aud_layout.specs.Leading.{around, all_ways};
ghost use Rattle.aud_gen.specs.Writes.{guard_lines, stub_lines, idle_lines, Writes};

use crate::lengths::behind_statements;
use crate::writer::Writer;
use aud_code::line::{Ending, Guard, Last, Way};
use aud_layout::ways::Ways;
use aud_meaning::state::Construct;
use aud_text::place::Pos;
use aud_typed::program::Handler;
use std::alloc::{AllocError, Global};

const NOWHERE: Pos = Pos { line: 0, col: 0 };

// Where these handlers begin, of which the first one stands at a place; this number of ways leads out.
fn guards(
    alloc: Global,
    handlers: &[Handler],
    place: usize,
    ways: usize,
) -> Result<Vec<Guard>, AllocError>
    ensures { IfOk result (λ gs. map plain_guard gs.items ≡
        guards_of_by flat_step (handlers_in handlers.now) place ways) }
{
    let mut guards = Vec::new(alloc);
    let mut to = place;
    for handler in handlers {
        guards.push(Guard {
            others: handler.others,
            choices: Vec::from_slice(alloc, &handler.choices)?,
            to,
        })?;
        to = behind_statements(to, &handler.statements, ways)?;
    }
    Ok(guards)
}

// The same where these ways lead out.
fn guards_within(
    alloc: Global,
    handlers: &[Handler],
    place: usize,
    ways: &Ways,
) -> Result<Vec<Guard>, AllocError>
    ensures { IfOk result (λ gs. map plain_guard gs.items ≡
        guards_of_by flat_step (handlers_in handlers.now) place (ways_count (around 0 ways.now))) }
{
    guards(alloc, handlers, place, ways.count()?)
}

impl Writer {
    /// The line behind the statements of a body, which says where its handlers begin; the first one stands behind it.
    pub fn write_guards(&mut self, handlers: &[Handler], end: Pos, last: usize, ways: &Ways)
        ensures { Writes self.old self.new (guard_lines (handlers_in handlers.now) end
            (length self.old.lines) last (ways_count (around 0 ways.now)) ways.now.within) }
    {
        let first = self.behind(self.place(), 1);
        match guards_within(self.alloc(), handlers, first, ways) {
            Ok(guards) => self.end(Last::Guards(guards), end, last, ways.within),
            Err(_) => self.refuse(),
        }
    }

    /// Behind a block, which the step at the place `within` opened: a line for each way, by which the block is left on it.
    pub fn write_stubs(&mut self, ways: &Ways, end: Pos, within: Option<usize>)
        ensures { Writes self.old self.new
            (stub_lines (all_ways (around 0 ways.now)) end within (length self.old.lines)) }
    {
        for way in &ways.exits {
            self.write_stub(*way, end, within);
        }
        self.write_stub(ways.back, end, within);
    }

    // Nothing is raised there.
    fn write_stub(&mut self, way: Way, end: Pos, within: Option<usize>)
        ensures { Writes self.old self.new
            (stub_lines (plain_way way ∷ []) end within (length self.old.lines)) }
    {
        let Way { to, loops } = way;
        self.end(Last::Leaves { loops, to }, end, self.place(), within);
    }

    /// A body of one null statement, for a number that no body has.
    pub fn write_idle(&mut self)
        ensures { Writes self.old self.new (idle_lines (length self.old.lines)) }
    {
        let guard = self.behind(self.place(), 1);
        let last = self.behind(guard, 1);
        self.end_statement(Ending::Null, last, NOWHERE, guard, None);
        self.end(Last::Guards(Vec::new(self.alloc())), NOWHERE, last, None);
        self.end(Last::Ends(Construct::Unit, 0), NOWHERE, last, None);
    }
}
