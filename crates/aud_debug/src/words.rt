// The words of statuses and of kinds of steps.

ghost use Rattle.std.specs.Prelude.{◌≡◌};
ghost use Rattle.aud_meaning.specs.Listings.{word};
ghost use Rattle.aud_machine.specs.Tasking.{words_of};

use aud_machine::status::Shown;
use aud_meaning::state::StepKind;

/// The word of a status.
pub(crate) fn status_word(status: Shown) -> &'static [u8]
    ensures { result.now ≡ words_of status }
{
    match status {
        Shown::Created => b"created",
        Shown::Ready => b"ready",
        Shown::Activation => b"activation",
        Shown::Accept => b"accept",
        Shown::Delay => b"delay",
        Shown::Queued => b"queued",
        Shown::Rendezvous => b"rendezvous",
        Shown::Master => b"master",
        Shown::Object => b"object",
        Shown::Completed => b"completed",
        Shown::Terminated => b"terminated",
    }
}

/// The word of a kind of step.
pub(crate) fn step_word(kind: StepKind) -> &'static [u8]
    ensures { result.now ≡ word kind }
{
    match kind {
        StepKind::Declaration => b"decl",
        StepKind::Activate => b"activate",
        StepKind::Activated => b"activated",
        StepKind::Null => b"null",
        StepKind::Assign => b"assign",
        StepKind::Put => b"put",
        StepKind::If => b"if",
        StepKind::While => b"while",
        StepKind::For => b"for",
        StepKind::Next => b"next",
        StepKind::Exit => b"exit",
        StepKind::Return => b"return",
        StepKind::Raise => b"raise",
        StepKind::Block => b"block",
        StepKind::Proc => b"proc",
        StepKind::Leave => b"leave",
        StepKind::Delay => b"delay",
        StepKind::Expire => b"expire",
        StepKind::Accept => b"accept",
        StepKind::Endaccept => b"endaccept",
        StepKind::Select => b"select",
        StepKind::Call => b"call",
        StepKind::Start => b"start",
        StepKind::Finish => b"finish",
        StepKind::Serve => b"serve",
        StepKind::Abort => b"abort",
        StepKind::Complete => b"complete",
        StepKind::Close => b"close",
        StepKind::Handler => b"handler",
        StepKind::Withdraw => b"withdraw",
        StepKind::Requeue => b"requeue",
    }
}
