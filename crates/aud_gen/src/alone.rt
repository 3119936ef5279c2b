// The lines of statements that hold no others: one step each.

ghost use Rattle.std.specs.Prelude.{length};
ghost use Rattle.aud_typed.specs.Tree.{declare_tasks, requeue};
ghost use Rattle.aud_typed.specs.Ties.View.{plain_requeue, plain_statement, plain_tasks};
ghost use Rattle.aud_layout.specs.Layout.{in_call};
ghost use Rattle.aud_layout.specs.Leading.{around};
ghost use Rattle.aud_gen.specs.Writes.{statement_lines, IsAlone, Writes, WritesInside};

use crate::writer::Writer;
use aud_code::line::{Among, Ending, EntryAgain};
use aud_layout::ways::Ways;
use aud_text::place::Pos;
use aud_typed::program::{Callee, Requeue, Statement, Tasks};

impl Writer {
    /// A statement's step, from which these ways lead out. Its exceptions go to the place `out`; behind it comes the
    /// step at the place `next`.
    pub(crate) fn write_alone(&mut self, s: &Statement, ways: &Ways, out: usize, next: usize)
        requires { IsAlone s.now }
        ensures { WritesInside self.old self.new (around out ways.now) (λ place a.
            statement_lines (plain_statement s.now) place next a) }
    {
        match s {
            Statement::Declare(at, up_to, e) => {
                let again = self.place();
                self.write_value(e);
                let up_to = *up_to;
                self.end_statement(
                    Ending::Declare { up_to, again },
                    next,
                    *at,
                    out,
                    ways.within,
                )
            }
            Statement::DeclareArray(at, subtype, length) => {
                self.end_statement(
                    Ending::DeclareArray(*subtype, *length),
                    next,
                    *at,
                    out,
                    ways.within,
                )
            }
            Statement::Null(at) => { self.end_statement(Ending::Null, next, *at, out, ways.within) }
            Statement::Assign(at, target, e) => {
                self.write_reference(target);
                self.write_value(e);
                self.end_statement(Ending::Assign, next, *at, out, ways.within)
            }
            Statement::Put(at, t) => {
                self.write_text(t);
                self.end_statement(Ending::Put, next, *at, out, ways.within)
            }
            Statement::Exit(at, further, condition) => {
                let way = ways.exit(*further, next);
                self.write_boolean(condition);
                self.end_statement(Ending::Exit(way), next, *at, out, ways.within)
            }
            Statement::Raise(at, exception) => {
                self.end_statement(Ending::Raise(*exception), next, *at, out, ways.within)
            }
            Statement::RaiseAgain(at) => {
                self.end_statement(Ending::RaiseAgain, next, *at, out, ways.within)
            }
            Statement::Return(at) => {
                self.end_statement(Ending::Return(ways.back), next, *at, out, ways.within)
            }
            Statement::ReturnValue(at, e) => {
                self.write_value(e);
                self.end_statement(Ending::ReturnValue(ways.back), next, *at, out, ways.within)
            }
            Statement::ProcedureCall(at, calling) => {
                self.write_calling(calling);
                self.end_statement(Ending::Call(calling.unit), next, *at, out, ways.within)
            }
            Statement::OwnEntryCall(at, arguments, form) => {
                self.write_called(arguments, form);
                self.end_statement(Ending::OwnCall, next, *at, out, ways.within)
            }
            Statement::OperationCall(at, object, calling) => {
                self.write_calling(calling);
                let among = Among::Operation {
                    object: *object,
                    unit: calling.unit,
                };
                self.concern(among, next, *at, out, ways.within)
            }
            Statement::DeclareTasks(at, tasks) => {
                self.write_tasks(tasks, next, *at, out, ways.within)
            }
            Statement::DeclareObject(at, declaration, components) => {
                self.write_object(components);
                let among = Among::DeclareObject(*declaration);
                self.concern(among, next, *at, out, ways.within)
            }
            Statement::Activated(at) => {
                self.concern(Among::Activated, next, *at, out, ways.within)
            }
            Statement::Delay(at, e) => {
                self.write_delay(e);
                self.concern(Among::Delay, next, *at, out, ways.within)
            }
            Statement::Abort(at, tasks) => {
                self.write_names(tasks);
                self.concern(Among::Abort, next, *at, out, ways.within)
            }
            Statement::Requeue(at, requeue) => { self.write_requeue(requeue, *at, ways, out, next) }
            Statement::If(_)
            | Statement::While(..)
            | Statement::Loop(_)
            | Statement::For(_)
            | Statement::Block(_)
            | Statement::EntryCall(_)
            | Statement::Accept(_)
            | Statement::Select(_) => unreachable!(),
        }
    }

    // The step that declares tasks.
    fn write_tasks(
        &mut self,
        tasks: &Tasks,
        next: usize,
        at: Pos,
        out: usize,
        within: Option<usize>,
    )
        ensures { Writes self.old self.new (statement_lines (declare_tasks at
            (plain_tasks tasks.now)) (length self.old.lines) next (in_call within out)) }
    {
        match tasks.try_clone(self.alloc()) {
            Ok(tasks) => self.concern(Among::DeclareTasks(tasks), next, at, out, within),
            Err(_) => self.refuse(),
        }
    }

    // The step of a requeue. An object is found where the step ends.
    fn write_requeue(&mut self, r: &Requeue, at: Pos, ways: &Ways, out: usize, next: usize)
        ensures { WritesInside self.old self.new (around out ways.now) (λ place a.
            statement_lines (requeue at (plain_requeue r.now)) place next a) }
    {
        let again = EntryAgain {
            entry: r.entry,
            with_formals: r.with_formals,
            with_abort: r.with_abort,
        };
        match &r.callee {
            Callee::Task(task) => {
                self.write_name(task);
                let among = Among::RequeueTask {
                    again,
                    way: ways.back,
                };
                self.concern(among, next, at, out, ways.within)
            }
            Callee::Object(object) => {
                let among = Among::RequeueObject {
                    object: *object,
                    again,
                    way: ways.back,
                };
                self.concern(among, next, at, out, ways.within)
            }
        }
    }
}
