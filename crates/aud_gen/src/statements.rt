// The lines of statements.

ghost use Rattle.std.specs.Prelude.{◌≡◌, List, length};
ghost use Rattle.aud_typed.specs.declared.program.Arm.{Arm as Arms};
ghost use Rattle.aud_typed.specs.Tree.{part_of};
ghost use Rattle.aud_typed.specs.Ties.View.{plain_boolean, plain_statement, plain_statements, statements_in, part_of_arms, if_in, for_in, handlers_in, elaborations_in, body_in, block_in};
ghost use Rattle.aud_typed.specs.Ties.View.{accept_in, alternatives_in, doing_in, entry_call_in, select_in};
ghost use Rattle.aud_layout.specs.Layout.{in_loop};
ghost use Rattle.aud_layout.specs.Leading.{around};
ghost use Rattle.aud_gen.specs.Writes.{statement_lines, part_lines, has_statements, listed_lines, arm_lines, arm_step, while_lines, for_lines, handlers_lines, body_lines, Writes, WritesInside};
ghost use Rattle.aud_gen.specs.Writes.{alone, doing_lines, offered_lines};

use crate::lengths::boolean_length;
use crate::writer::Writer;
use aud_code::line::{Among, Ending, ForLoop, Last};
use aud_layout::ways::Ways;
use aud_meaning::state::Construct;
use aud_text::place::Pos;
use aud_typed::program::{
    AcceptStatement, Alternative, Arm, BlockStatement, Body, BooleanExpression, Doing,
    EntryCallStatement, ForStatement, Handler, IfStatement, SelectStatement, Statement, Statements,
};

// These ways lead out of what is written. Exceptions of it go to the place `out`; behind it comes the step at the place `next`.
impl Writer {
    /// A statement.
    #[cycle(statements)]
    pub fn write_statement(&mut self, s: &Statement, ways: &Ways, out: usize, next: usize)
        ensures { WritesInside self.old self.new (around out ways.now) (λ place a.
            statement_lines (plain_statement s.now) place next a) }
    {
        match s {
            Statement::If(branches) => self.write_if(branches, ways, out, next),
            Statement::While(at, condition, body) => {
                let place = self.place();
                self.write_while(condition, *at, out, next, ways.within);
                self.write_loop(body, ways, out, next, place)
            }
            Statement::Loop(body) => self.write_loop(body, ways, out, next, self.place()),
            Statement::For(s) => self.write_for(s, ways, out, next),
            Statement::Block(block) => self.write_block(block, ways, out, next),
            Statement::EntryCall(call) => self.write_entry_call(call, ways, out, next),
            Statement::Accept(accept) => self.write_accept_statement(accept, ways, out, next),
            Statement::Select(select) => self.write_select(select, ways, out, next),
            Statement::Declare(..)
            | Statement::DeclareArray(..)
            | Statement::DeclareTasks(..)
            | Statement::DeclareObject(..)
            | Statement::Activated(_)
            | Statement::Null(_)
            | Statement::Assign(..)
            | Statement::Put(..)
            | Statement::Exit(..)
            | Statement::Raise(..)
            | Statement::RaiseAgain(_)
            | Statement::Return(_)
            | Statement::ReturnValue(..)
            | Statement::ProcedureCall(..)
            | Statement::OwnEntryCall(..)
            | Statement::OperationCall(..)
            | Statement::Delay(..)
            | Statement::Abort(..)
            | Statement::Requeue(..) => self.write_alone(s, ways, out, next),
        }
    }

    /// Statements.
    #[cycle(statements)]
    pub fn write_statements(&mut self, ss: &Statements, ways: &Ways, out: usize, next: usize)
        ensures { WritesInside self.old self.new (around out ways.now) (λ place a.
            statement_lines (statements_in ss.now) place next a) }
    {
        self.write_in_list(&ss.first, ss.others.is_empty(), ways, out, next);
        self.write_list(&ss.others, ways, out, next);
    }

    /// Statements, of which there may be none.
    #[cycle(statements)]
    pub fn write_list(&mut self, ss: &[Statement], ways: &Ways, out: usize, next: usize)
        ensures { WritesInside self.old self.new (around out ways.now) (λ place a.
            part_lines (part_of (plain_statements ss.now)) place next a) }
    {
        let mut left = ss.len();
        for s in ss {
            left -= 1;
            self.write_in_list(s, left == 0, ways, out, next);
        }
    }

    // A statement, behind which comes what stands behind it, or the step at the place `next` where it is the last one.
    #[cycle(statements)]
    fn write_in_list(&mut self, s: &Statement, is_last: bool, ways: &Ways, out: usize, next: usize)
        ensures { WritesInside self.old self.new (around out ways.now) (λ place a.
            listed_lines (plain_statement s.now) is_last place next a) }
    {
        let then = self.behind_listed(s, is_last, ways, next);
        self.write_statement(s, ways, out, then);
    }

    #[cycle(statements)]
    fn write_if(&mut self, s: &IfStatement, ways: &Ways, out: usize, next: usize)
        ensures { WritesInside self.old self.new (around out ways.now) (λ place a.
            statement_lines (if_in s.now) place next a) }
    {
        let mut left = s.others.len();
        self.write_arm(&s.first, goes_on(left, &s.otherwise), ways, out, next);
        for arm in &s.others {
            left -= 1;
            self.write_arm(arm, goes_on(left, &s.otherwise), ways, out, next);
        }
        self.write_list(&s.otherwise, ways, out, next);
    }

    // The step of an arm, which leads behind the arm where there is more, and its statements.
    #[cycle(statements)]
    fn write_arm(&mut self, arm: &Arm, more: bool, ways: &Ways, out: usize, next: usize)
        ensures { WritesInside self.old self.new (around out ways.now) (λ place a.
            arm_lines arm.now more place next a) }
    {
        self.write_test(arm, more, ways, out, next);
        self.write_statements(&arm.statements, ways, out, next);
    }

    // The step of an arm.
    fn write_test(&mut self, arm: &Arm, more: bool, ways: &Ways, out: usize, next: usize)
        ensures { WritesInside self.old self.new (around out ways.now) (λ place a.
            arm_step arm.now more place next a) }
    {
        let step = boolean_length(&arm.condition).saturating_add(1);
        let inside = self.behind(self.place(), step);
        let behind = self.behind_statements(inside, &arm.statements, ways);
        let otherwise = if more { behind } else { next };
        self.write_boolean(&arm.condition);
        self.end_statement(Ending::If(inside), otherwise, arm.at, out, ways.within);
    }

    // The statements of a loop, behind which comes the step at the place `again`; exits lead to the place `next`.
    #[cycle(statements)]
    fn write_loop(&mut self, body: &Statements, ways: &Ways, out: usize, next: usize, again: usize)
        ensures { WritesInside self.old self.new (around out ways.now) (λ place a.
            statement_lines (statements_in body.now) place again (in_loop next a)) }
    {
        match ways.in_loop(self.alloc(), next) {
            Ok(inner) => self.write_statements(body, &inner, out, again),
            Err(_) => self.refuse(),
        }
    }

    // The step of a `while`, behind which its statements stand.
    fn write_while(
        &mut self,
        condition: &BooleanExpression,
        at: Pos,
        out: usize,
        next: usize,
        within: Option<usize>,
    )
        ensures { Writes self.old self.new
            (while_lines at (plain_boolean condition.now) (length self.old.lines) next out within) }
    {
        let step = boolean_length(condition).saturating_add(1);
        let inside = self.behind(self.place(), step);
        self.write_boolean(condition);
        self.end_statement(Ending::While(inside), next, at, out, within);
    }

    // The step of a `for` and the step `next`, to which its statements lead back.
    #[cycle(statements)]
    fn write_for(&mut self, s: &ForStatement, ways: &Ways, out: usize, next: usize)
        ensures { WritesInside self.old self.new (around out ways.now) (λ place a.
            statement_lines (for_in s.now) place next a) }
    {
        let place = self.place();
        let again = self.behind_bounds(s);
        match ways.in_for(self.alloc(), place, next) {
            Ok(inner) => {
                self.write_control(s, place, again, out, next, ways.within);
                self.write_statements(&s.statements, &inner, out, again);
            }
            Err(_) => self.refuse(),
        }
    }

    // Both steps; the first one stands at a place, the second one at the place `again`.
    fn write_control(
        &mut self,
        s: &ForStatement,
        place: usize,
        again: usize,
        out: usize,
        next: usize,
        within: Option<usize>,
    )
        ensures { Writes self.old self.new (for_lines s.now place again next out within) }
    {
        let control = ForLoop {
            at: s.at,
            next_at: s.next_at,
            region: s.region,
            backward: s.backward,
        };
        let inside = self.behind(again, 1);
        self.write_integer(&s.first);
        self.write_integer(&s.last);
        self.end_statement(Ending::Loop { control, inside }, next, s.at, out, within);
        let last = Last::Continues {
            control,
            behind: next,
            inside,
        };
        self.end(last, s.next_at, out, Some(place));
    }

    // The step of a block, its body, and the lines by which it is left on other ways.
    #[cycle(statements)]
    fn write_block(&mut self, block: &BlockStatement, ways: &Ways, out: usize, next: usize)
        ensures { WritesInside self.old self.new (around out ways.now) (λ place a.
            statement_lines (block_in block.now) place next a) }
    {
        let region = block.region;
        let place = self.place();
        let inside = self.behind(place, 1);
        let last = self.end_of(&block.body, inside, ways);
        match ways.in_block(self.alloc(), place, last) {
            Ok(inner) => {
                let step = Ending::Block { region, inside };
                self.end_statement(step, next, block.at, out, ways.within);
                self.write_body(&block.body, Construct::Block, &inner, last, next, out);
                self.write_stubs(ways, block.body.end, Some(place));
            }
            Err(_) => self.refuse(),
        }
    }

    // The step of an entry call, the statements behind it, and those behind its `else` or delay.
    #[cycle(statements)]
    fn write_entry_call(&mut self, call: &EntryCallStatement, ways: &Ways, out: usize, next: usize)
        ensures { WritesInside self.old self.new (around out ways.now) (λ place a.
            statement_lines (entry_call_in call.now) place next a) }
    {
        self.write_call_step(call, ways, out, next);
        self.write_list(&call.after, ways, out, next);
        self.write_list(&call.otherwise, ways, out, next);
    }

    // The step of an accept, and what it does.
    #[cycle(statements)]
    fn write_accept_statement(
        &mut self,
        accept: &AcceptStatement,
        ways: &Ways,
        out: usize,
        next: usize,
    )
        ensures { WritesInside self.old self.new (around out ways.now) (λ place a.
            statement_lines (accept_in accept.now) place next a) }
    {
        let own = self.place();
        self.write_accept(accept, next, out, ways.within);
        self.write_doing(&accept.doing, own, next, out);
    }

    // What an accept does, if it does something, whose step stands at the place `opener`.
    #[cycle(statements)]
    fn write_doing(&mut self, doing: &Option<Doing>, opener: usize, next: usize, out: usize)
        ensures { Writes self.old self.new
            (doing_lines (doing_in doing.now) opener (length self.old.lines) next out) }
    {
        match doing {
            None => {}
            Some(doing) => {
                let last = self.end_of_unit(&doing.body);
                let ways = Ways::of_body(self.alloc(), Some(opener), last);
                self.write_body(&doing.body, Construct::Accept, &ways, last, next, out);
            }
        }
    }

    // The step of a selective accept, what lies in its alternatives, and the statements behind its `else`.
    #[cycle(statements)]
    fn write_select(&mut self, select: &SelectStatement, ways: &Ways, out: usize, next: usize)
        ensures { WritesInside self.old self.new (around out ways.now) (λ place a.
            statement_lines (select_in select.now) place next a) }
    {
        let own = self.place();
        self.write_choice_step(select, ways, out, next);
        self.write_alternatives(&select.alternatives, own, ways, out, next);
        self.write_list(&select.otherwise, ways, out, next);
    }

    // What lies in the alternatives of the selective accept whose step stands at the place `opener`.
    #[cycle(statements)]
    fn write_alternatives(
        &mut self,
        alternatives: &[Alternative],
        opener: usize,
        ways: &Ways,
        out: usize,
        next: usize,
    )
        ensures { WritesInside self.old self.new (around out ways.now) (λ place a.
            offered_lines (alternatives_in alternatives.now) opener place next a) }
    {
        for alternative in alternatives {
            self.write_alternative(alternative, opener, ways, out, next);
        }
    }

    // What the accept of an alternative does, and the statements behind that.
    #[cycle(statements)]
    fn write_alternative(
        &mut self,
        alternative: &Alternative,
        opener: usize,
        ways: &Ways,
        out: usize,
        next: usize,
    )
        ensures { WritesInside self.old self.new (around out ways.now) (λ place a.
            offered_lines (alone alternative.now) opener place next a) }
    {
        match alternative {
            Alternative::Accept { accept, after, .. } => {
                let behind = self.behind_doing(&accept.doing, after, next);
                self.write_doing(&accept.doing, opener, behind, out);
                self.write_list(after, ways, out, next);
            }
            Alternative::Delay { after, .. } => self.write_list(after, ways, out, next),
            Alternative::Terminate { .. } => {}
        }
    }

    /// A body with its end at the place `last`: its declarations and their activation, its statements, the line that guards
    /// them, its handlers, and its end.
    #[cycle(statements)]
    pub fn write_body(
        &mut self,
        body: &Body,
        construct: Construct,
        ways: &Ways,
        last: usize,
        next: usize,
        out: usize,
    )
        ensures { WritesInside self.old self.new (around last ways.now) (λ place a.
            body_lines construct (body_in body.now) last place next out a) }
    {
        let begin = self.behind_elaborations(body, ways);
        let guard = self.behind_statements(begin, &body.statements, ways);
        self.write_elaborations(body, ways, last, begin);
        self.write_statements(&body.statements, ways, guard, last);
        self.write_guards(&body.handlers, body.end, last, ways);
        self.write_handlers(&body.handlers, ways, last);
        self.end(Last::Ends(construct, next), body.end, out, ways.within);
    }

    // What a body does before its statements: its declarations, and the activation at its `begin`.
    #[cycle(statements)]
    fn write_elaborations(&mut self, body: &Body, ways: &Ways, out: usize, next: usize)
        ensures { WritesInside self.old self.new (around out ways.now) (λ place a.
            part_lines (part_of (elaborations_in body.now)) place next a) }
    {
        if body.activates {
            let activation = self.behind_list(self.place(), &body.declarations, ways);
            self.write_list(&body.declarations, ways, out, activation);
            self.concern(Among::Activate, next, body.begin, out, ways.within);
        } else {
            self.write_list(&body.declarations, ways, out, next);
        }
    }

    // The statements of handlers, behind which comes the end at the place `last`.
    #[cycle(statements)]
    fn write_handlers(&mut self, handlers: &[Handler], ways: &Ways, last: usize)
        ensures { WritesInside self.old self.new (around last ways.now) (λ place a.
            handlers_lines (handlers_in handlers.now) place last a) }
    {
        for handler in handlers {
            self.write_statements(&handler.statements, ways, last, last);
        }
    }
}

// Whether an `if` goes on, with this number of arms and these statements behind `else`.
fn goes_on(arms: usize, otherwise: &[Statement]) -> bool
    ensures { (rest : List Arms) → length rest ≡ arms →
        result ≡ has_statements (part_of_arms rest (part_of (plain_statements otherwise.now))) }
{
    0 < arms || !otherwise.is_empty()
}
