// The laws of what was brought.
ghost use Rattle.rt_cache.specs.laws.Runs.{PlainBaseIsWhatWasPushed};
ghost use Rattle.rt_cache.specs.laws.Windows.{BaseIsSeen, SourceIsHolder, HeldSinceBegun, HeldIsBegun};
ghost use Rattle.rt_cache.specs.laws.Windows.{HandedOnIsSeen, RegisteringIsAChange, SuppliedHasTheSame};

/// After any pushes and changes of cover, beginning with nothing brought: a plain query has the
/// part at its path of all that plain listens pushed, whole, from a push at or above its path on
/// until no plain listen there is kept; else nothing.
pub fn run_law()
    ensures { PlainBaseIsWhatWasPushed }
{}

/// After any pushes and changes of cover, beginning with nothing brought: a query has the part at its
/// path of all that plain listens pushed, whole, as long as the plain query there has it. Else it has
/// the children of the first registered form that holds some, and is the query or a range that takes
/// it in.
///
/// A query holds the children that a push at its path on its listen brought, not whole. Where a change
/// of cover leaves it nothing of what it had, and it is registered, it holds the children of that from
/// then on, as whole as they were; unless another such form takes it in, which then holds them. It
/// holds what was begun so, with what was pushed on its listen since, until a push at its path on its
/// listen or on a range's that takes it in, one on a plain listen at or above its path, or a change of
/// cover that leaves it unregistered. What a change of cover hands on to it is seen of it as before.
///
/// A registered form is such a change of cover, and so is the end of listeners
/// ([`Brought::unregister`]). A query that has another form's window has just what that form has.
pub fn window_law()
    ensures told { BaseIsSeen }
    ensures source { SourceIsHolder }
    ensures since { HeldSinceBegun }
    ensures begun { HeldIsBegun }
    ensures handed { HandedOnIsSeen }
    ensures registering { RegisteringIsAChange }
    ensures supplied { SuppliedHasTheSame }
{}
