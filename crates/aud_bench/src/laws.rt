// Laws of the definitions. Each function does nothing: its contract is the law.

ghost use Rattle.aud_bench.specs.Ties.Kept.{FrontLaw, WholeLaw, NeverLaw, CountLaw};
ghost use Rattle.aud_bench.specs.Why.Made.{MoreLaw, GrowsLaw, ShortLaw, CostLaw};

/// What a bench has made of the requests that it keeps is a front of the private server's answers to them.
pub fn front_law()
    ensures { FrontLaw }
{}

/// With all the units that the requests cost, it is all of these answers.
pub fn whole_law()
    ensures { WholeLaw }
{}

/// Requests that are given later change nothing of what is made of those before them.
pub fn more_law()
    ensures { MoreLaw }
{}

/// What more units make begins with what fewer make.
pub fn grows_law()
    ensures { GrowsLaw }
{}

/// There are at most as many answers as requests: fewer while units are left, and as many where none is.
pub fn short_law()
    ensures { ShortLaw }
{}

/// Each request that is given later costs a unit at least.
pub fn cost_law()
    ensures { CostLaw }
{}

/// A private server never answers that memory is out.
pub fn never_law()
    ensures { NeverLaw }
{}

/// A private server gives no more answers than there are requests.
pub fn count_law()
    ensures { CountLaw }
{}
