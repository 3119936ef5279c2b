// The laws of what is over, where what is left to do is said by statements and where it is said by places of code. Each
// function does nothing: its contract is the law.

ghost use Rattle.std.specs.Prelude.{List};
ghost use Rattle.aud_meaning.specs.Configuration.{Item};
ghost use Rattle.aud_code.specs.Places.{Spot};
ghost use Rattle.aud_over.specs.Law.{StatementsLook, CodeLooks, AgainLaw, MovesLaw, StateLaw, ViewLaw, StepLaw, RunLaw, KeptLaw, SuppliedLaw};
ghost use Rattle.aud_over.specs.Standing.{OpensLaw, KeepsLaw, AlwaysLaw, PinsLaw, NamedLaw, OpenLaw, InnermostLaw, MemoryLaw};

/// Statements and code look at variables only through what is seen.
pub fn looks_law()
    ensures statements { StatementsLook }
    ensures code { CodeLooks }
{}

/// What is over is forgotten at once.
pub fn again_law()
    ensures statements { AgainLaw (List Item) }
    ensures code { AgainLaw Spot }
{}

/// Programs under way of which the same is left have the same enabled moves.
pub fn moves_law()
    ensures statements { MovesLaw (List Item) }
    ensures code { MovesLaw Spot }
{}

/// They have the same state.
pub fn state_law()
    ensures statements { StateLaw (List Item) }
    ensures code { StateLaw Spot }
{}

/// The same is shown of them.
pub fn view_law()
    ensures statements { ViewLaw (List Item) }
    ensures code { ViewLaw Spot }
{}

/// An enabled step leaves the same of them.
pub fn step_law()
    ensures statements { StepLaw (List Item) }
    ensures code { StepLaw Spot }
{}

/// And so does a run.
pub fn run_law()
    ensures statements { RunLaw (List Item) }
    ensures code { RunLaw Spot }
{}

/// What the user supplies leaves the same of them.
pub fn supplied_law()
    ensures statements { SuppliedLaw (List Item) }
    ensures code { SuppliedLaw Spot }
{}

/// Whatever is kept besides the frames and calls that are named, the same is left.
pub fn kept_law()
    ensures statements { KeptLaw (List Item) }
    ensures code { KeptLaw Spot }
{}

/// At the beginning, and behind each step that fits, those frames are open that are seen; then no other frame is named
/// but those around objects, the first one and those that are kept for other reasons.
pub fn open_law()
    ensures statements_begin { OpensLaw (List Item) }
    ensures code_begin { OpensLaw Spot }
    ensures statements { KeepsLaw (List Item) }
    ensures code { KeepsLaw Spot }
    ensures statements_always { AlwaysLaw (List Item) }
    ensures code_always { AlwaysLaw Spot }
    ensures statements_pins { PinsLaw (List Item) }
    ensures code_pins { PinsLaw Spot }
    ensures statements_named { NamedLaw (List Item) }
    ensures code_named { NamedLaw Spot }
    ensures statements_left { OpenLaw (List Item) }
    ensures code_left { OpenLaw Spot }
    ensures statements_innermost { InnermostLaw (List Item) }
    ensures code_innermost { InnermostLaw Spot }
{}

/// A memory that keeps no more than what is open or pinned, and the calls that are left, shows what the definitions come to.
pub fn memory_law()
    ensures statements { MemoryLaw (List Item) }
    ensures code { MemoryLaw Spot }
{}
