// What expressions see of tasks and queues.

use crate::task::Task;
use aud_calls::calls::Calls;
use aud_expr::facts::Facts;

/// All tasks and all entry calls, lent to an evaluation.
#[derive(Clone, Copy)]
pub struct Seen<'a> {
    pub tasks: &'a [Task],
    pub calls: &'a Calls,
}

impl Facts for Seen<'_> {
    ghost use Rattle.std.specs.Prelude.{map};
    ghost use Rattle.aud_meaning.specs.Parts.{facts_in, owns};
    ghost use Rattle.aud_state.specs.View.{plain_task};

    ghost facts = { λ s. facts_in (owns (map plain_task s.tasks.now)) s.calls.now.calls };

    fn count(&self, owner: usize, entry: usize) -> usize {
        self.calls.count(owner, entry)
    }

    #[tactic(auto, using(crate::proofs::TaskLaws::Changed::own_got, crate::proofs::TaskLaws::Changed::own_past))]
    fn is_callable(&self, task: usize) -> bool {
        if task < self.tasks.len() {
            let found = &self.tasks[task];
            found.is_callable()
        } else {
            false
        }
    }

    #[tactic(auto, using(crate::proofs::TaskLaws::Changed::own_got, crate::proofs::TaskLaws::Changed::own_past))]
    fn is_terminated(&self, task: usize) -> bool {
        if task < self.tasks.len() {
            let found = &self.tasks[task];
            found.is_terminated()
        } else {
            true
        }
    }
}
