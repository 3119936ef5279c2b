// What kind of step comes next, by how it ends.

ghost use Rattle.std.specs.Prelude.{◌≡◌};
ghost use Rattle.aud_sequential.specs.Next.{among_kind, statement_kind, step_kind};

use aud_code::line::{Among, Ending, Last};
use aud_meaning::state::StepKind;

// The kind of a step, by how it ends; `leaving` is that of the step that leaves the innermost construct.
pub(crate) fn step_kind(last: &Last, leaving: StepKind) -> StepKind
    ensures { result ≡ step_kind last.now leaving }
{
    match last {
        Last::Does(ending, _) => statement_kind(*ending),
        Last::Concerns(among, _) => among_kind(among),
        Last::Continues { .. } => StepKind::Next,
        Last::Guards(_) | Last::Ends(_, _) | Last::Leaves { .. } => leaving,
    }
}

fn among_kind(among: &Among) -> StepKind
    ensures { result ≡ among_kind among.now }
{
    match among {
        Among::DeclareTasks(_) | Among::DeclareObject(_) => StepKind::Declaration,
        Among::Activate => StepKind::Activate,
        Among::Activated => StepKind::Activated,
        Among::Call { .. } => StepKind::Call,
        Among::CallObject { .. } | Among::Operation { .. } => StepKind::Start,
        Among::Delay => StepKind::Delay,
        Among::Accept { .. } => StepKind::Accept,
        Among::Select { .. } => StepKind::Select,
        Among::Abort => StepKind::Abort,
        Among::RequeueTask { .. } | Among::RequeueObject { .. } => StepKind::Requeue,
    }
}

fn statement_kind(ending: Ending) -> StepKind
    ensures { result ≡ statement_kind ending }
{
    match ending {
        Ending::Declare { .. } | Ending::DeclareArray(_, _) => StepKind::Declaration,
        Ending::Null => StepKind::Null,
        Ending::Assign => StepKind::Assign,
        Ending::Put => StepKind::Put,
        Ending::If(_) => StepKind::If,
        Ending::While(_) => StepKind::While,
        Ending::Loop { .. } => StepKind::For,
        Ending::Exit(_) => StepKind::Exit,
        Ending::Raise(_) | Ending::RaiseAgain => StepKind::Raise,
        Ending::Block { .. } => StepKind::Block,
        Ending::Return(_) | Ending::ReturnValue(_) => StepKind::Return,
        Ending::Call(_) | Ending::OwnCall => StepKind::Proc,
    }
}
