// The law of what threads share, and what is handed to them.
ghost use Rattle.rt_link.specs.laws.Crossing.{LinkedIsShared, LinkedIsSent, BellIsShared, BellIsSent};
ghost use Rattle.rt_link.specs.laws.Crossing.{LinkIsSent, FaultIsSent};

use rt_client::crossing_law;

/// Threads may share a linked client and what wakes its link, and each may be handed one. A thread may be
/// handed a link, and hand back why it can't go on. Whoever starts threads over them calls this, in each
/// function and closure that starts one, beside `crossing_law` of `rt_client` for seats and what is told.
pub fn link_crossing_law()
    ensures linked { LinkedIsShared }
    ensures moved { LinkedIsSent }
    ensures bell { BellIsShared }
    ensures moved_bell { BellIsSent }
    ensures link { LinkIsSent }
    ensures fault { FaultIsSent }
{
    // For the prover: what a client holds.
    crossing_law();
}
