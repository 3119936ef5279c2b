// Places behind what is to be written, to which steps before it lead.

ghost use Rattle.std.specs.Prelude.{◌≡◌, ◌+◌, if◌then◌else◌, length};
ghost use Rattle.aud_typed.specs.Tree.{part_of};
ghost use Rattle.aud_typed.specs.Ties.View.{alternatives_in, plain_statement, plain_statements, statements_in, elaborations_in, body_in, doing_in};
ghost use Rattle.aud_typed.specs.declared.program.SelectStatement.{out-SelectStatement};
ghost use Rattle.aud_layout.specs.Layout.{statement_size_by, part_size_by, doing_size_by, end_place_by, offered_size_by, part_place, ways_count};
ghost use Rattle.aud_layout.specs.Leading.{around};
ghost use Rattle.aud_layout.specs.Written.{flat_step};
ghost use Rattle.aud_gen.specs.Writes.{bounds, counted, Finds};

use crate::entries::part_place;
use crate::lengths::{
    alternatives_length, doing_length, elaborations_length, integer_length, list_length,
    place_of_end, statement_length, statements_length,
};
use crate::writer::Writer;
use aud_layout::ways::Ways;
use aud_typed::program::{Body, Doing, ForStatement, SelectStatement, Statement, Statements};

// How many ways there are.
fn count(ways: &Ways) -> usize
    ensures { result ≡ counted (ways_count (around 0 ways.now)) }
{
    ways.exits.len().saturating_add(1)
}

impl Writer {
    /// Where a statement of a list leads, that is written next: behind it, or to the step `next` where it is the last.
    pub fn behind_listed(&mut self, s: &Statement, is_last: bool, ways: &Ways, next: usize) -> usize
        ensures { Finds self.old self.new (result ≡ (if is_last then next
            else length self.old.lines + statement_size_by flat_step
            (plain_statement s.now) (ways_count (around 0 ways.now)))) }
    {
        if is_last {
            next
        } else {
            self.behind_statement(s, ways)
        }
    }

    // Behind a statement that is written next.
    fn behind_statement(&mut self, s: &Statement, ways: &Ways) -> usize
        ensures { Finds self.old self.new (result ≡ length self.old.lines + statement_size_by
            flat_step (plain_statement s.now) (ways_count (around 0 ways.now))) }
    {
        let length = statement_length(s, count(ways));
        self.behind(self.place(), length)
    }

    /// Behind statements that stand at a place.
    pub fn behind_statements(&mut self, place: usize, ss: &Statements, ways: &Ways) -> usize
        ensures { Finds self.old self.new (result ≡ place
            + statement_size_by flat_step (statements_in ss.now) (ways_count (around 0 ways.now))) }
    {
        let length = statements_length(ss, count(ways));
        self.behind(place, length)
    }

    /// The same of statements of which there may be none.
    pub fn behind_list(&mut self, place: usize, ss: &[Statement], ways: &Ways) -> usize
        ensures { Finds self.old self.new (result ≡ place + part_size_by
            flat_step (part_of (plain_statements ss.now)) (ways_count (around 0 ways.now))) }
    {
        let length = list_length(ss, count(ways));
        self.behind(place, length)
    }

    /// Behind what a body, which is written next, does before its statements.
    pub fn behind_elaborations(&mut self, body: &Body, ways: &Ways) -> usize
        ensures { Finds self.old self.new (result ≡ length self.old.lines + part_size_by
            flat_step (part_of (elaborations_in body.now)) (ways_count (around 0 ways.now))) }
    {
        let length = elaborations_length(body, count(ways));
        self.behind(self.place(), length)
    }

    /// The end of a body that stands at a place.
    pub fn end_of(&mut self, body: &Body, place: usize, ways: &Ways) -> usize
        ensures { Finds self.old self.new (result ≡
            end_place_by flat_step (body_in body.now) place (ways_count (around 0 ways.now))) }
    {
        let last = place_of_end(body, place, count(ways));
        self.behind(last, 0)
    }

    /// The end of a body that is written next, out of which one way leads.
    pub fn end_of_unit(&mut self, body: &Body) -> usize
        ensures { Finds self.old self.new (result ≡
            end_place_by flat_step (body_in body.now) (length self.old.lines) 1) }
    {
        let last = place_of_end(body, self.place(), 1);
        self.behind(last, 0)
    }

    /// Where what an accept does leads, that is written next: to these statements behind it, or else to the step
    /// `next`.
    pub fn behind_doing(&mut self, doing: &Option<Doing>, after: &[Statement], next: usize) -> usize
        ensures { Finds self.old self.new (result ≡ part_place (part_of (plain_statements after.now))
            (length self.old.lines + doing_size_by flat_step (doing_in doing.now)) next) }
    {
        let second = self.behind(self.place(), doing_length(doing));
        part_place(after, second, next)
    }

    /// Where a selective accept leads if no alternative is open: behind what lies in its alternatives, which stands at
    /// a place, to the statements behind its `else`, or else to the step `next`.
    pub fn behind_offered(
        &mut self,
        place: usize,
        select: &SelectStatement,
        ways: &Ways,
        next: usize,
    ) -> usize
        ensures { (let s = out-SelectStatement select.now in
            Finds self.old self.new (result ≡ part_place (part_of (plain_statements s.otherwise.items))
            (place + offered_size_by flat_step (alternatives_in s.alternatives.items)
            (ways_count (around 0 ways.now))) next)) }
    {
        let offered = alternatives_length(&select.alternatives, count(ways));
        let second = self.behind(place, offered);
        part_place(&select.otherwise, second, next)
    }

    /// The second step of a `for`, behind its bounds and its first step, which are written next.
    pub fn behind_bounds(&mut self, s: &ForStatement) -> usize
        ensures { Finds self.old self.new (result ≡ length self.old.lines + bounds s.now + 1) }
    {
        let bounds = integer_length(&s.first).saturating_add(integer_length(&s.last));
        self.behind(self.place(), bounds.saturating_add(1))
    }
}
