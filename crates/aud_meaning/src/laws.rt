// Laws of the meaning. Each function does nothing: its contract is the law.

ghost use Rattle.std.specs.Prelude.{List};
ghost use Rattle.aud_meaning.specs.Configuration.{Item};
ghost use Rattle.aud_meaning.specs.Why.Laws.{CutLaw, ClockLaw, StepsLaw};
ghost use Rattle.aud_meaning.specs.Why.Alone.{AloneLaw};
ghost use Rattle.aud_meaning.specs.Why.Carried.{CarriedLaw};
ghost use Rattle.aud_meaning.specs.Why.Stuck.{StuckLaw};
ghost use Rattle.aud_meaning.specs.Why.Limits.{LimitsLaw};
ghost use Rattle.aud_meaning.specs.Why.Open.{OpenLaw};

/// A run may be cut anywhere.
pub fn cut_law()
    ensures { CutLaw }
{}

/// Steps take no time: only the user lets the clock go on (RM 9.6).
pub fn clock_law()
    ensures { ClockLaw }
{}

/// A run does all its steps, unless no move is enabled where it ends.
pub fn steps_law()
    ensures { StepsLaw }
{}

/// A step is what its turn does, carried out at once: no order is noted.
pub fn carried_law()
    ensures { CarriedLaw (List Item) }
{}

/// A step that concerns a task alone is done by it alone.
pub fn alone_law()
    ensures { AloneLaw (List Item) }
{}

/// A program is stuck exactly where nothing can happen any more, however long the user waits.
pub fn stuck_law()
    ensures { StuckLaw (List Item) }
{}

/// A program keeps the limits of its machine, whichever moves are taken.
pub fn limits_law()
    ensures { LimitsLaw (List Item) }
{}

/// Between steps no call is queued on an open task entry, whichever enabled moves are taken.
pub fn open_entry_law()
    ensures { OpenLaw }
{}
