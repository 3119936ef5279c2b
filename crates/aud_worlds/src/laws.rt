// Laws of the definitions: each of these functions does nothing, and its contract is the law. `world_run` makes the calls of a
// list.

ghost use Rattle.aud_worlds.specs.Headline.{HeadlineLaw, EverySeatLaw, SliceLaw, SessionLaw, TwoWorldsLaw, AmpleLaw};
ghost use Rattle.aud_worlds.specs.Taken.{LastLaw};
ghost use Rattle.aud_worlds.specs.Why.Laws.{WorldLaw, IsolationLaw, IdleLaw, TellsIdleLaw, AwaitedLaw, RoomLaw, OthersLaw, RefusalLaw};
ghost use Rattle.aud_worlds.specs.Why.Rows.{Rows};
ghost use Rattle.aud_worlds.specs.Why.Runs.{RunLaw};

pub use crate::run::world_run;

/// The answers of every session are a beginning of those of a private server to the requests that were accepted of it,
/// and all of them where no work is in hand.
pub fn headline_law()
    ensures { HeadlineLaw }
{}

/// At every seat the answers so far are exactly what the bench that it took in last has made.
pub fn last_law()
    ensures { LastLaw }
{}

/// Every seat that is claimed is a session's.
pub fn every_seat_law()
    ensures { EverySeatLaw }
{}

/// A slice does exactly the lesser of its units and of what is left of the cost.
pub fn slice_law()
    ensures { SliceLaw }
{}

/// What is a session's own of the world is what its own events come to where nobody else is.
pub fn session_law()
    ensures { SessionLaw }
{}

/// Worlds that agree on a session answer the same later events of it alike.
pub fn two_worlds_law()
    ensures { TwoWorldsLaw }
{}

/// Where no memory is refused as a session's bench is given its requests, and no bench that has closed is taken in at its
/// seat, its answers are a prefix of those of a private server and nothing else.
pub fn ample_law()
    ensures { AmpleLaw }
{}

/// In every world each outbox is what its bench has made, and each parcel has its own truth.
pub fn world_law()
    ensures { WorldLaw }
{}

/// At every seat the answers so far are a beginning of those of a private server to the stored requests, and all of them
/// where no work is in hand.
pub fn isolation_law()
    ensures { IsolationLaw }
{}

/// No work is in hand exactly where an open bench is at home and there are as many answers as requests.
pub fn idle_law()
    ensures { IdleLaw }
{}

/// After a parcel was taken in, the reply tells whether work is in hand.
pub fn tells_idle_law()
    ensures { TellsIdleLaw }
{}

/// A seat takes in the bench that it sent out, whatever work was done on it and whatever was asked since.
pub fn awaited_law()
    ensures { AwaitedLaw }
{}

/// No outbox is longer than the stored requests.
pub fn room_law()
    ensures { RoomLaw }
{}

/// An event that is not a session's own changes nothing that is.
pub fn others_law()
    ensures { OthersLaw }
{}

/// A call that is refused changes nothing.
pub fn refusal_law()
    ensures { RefusalLaw }
{}

/// Whatever calls are made, in the world that they come to no user is felt by another.
pub fn run_law()
    ensures { RunLaw }
{}

/// What a hall replies to some lists of events.
pub fn rows()
    ensures { Rows }
{}
