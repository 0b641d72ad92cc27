//! Items and texts of calls that the prover computes.
ghost use Rattle.rt_foreign.specs.laws.Examples.{ItemsAreWritten, QueriesAreRead};

/// What items are written as.
pub fn items_are_written()
    ensures { ItemsAreWritten }
{}

/// What a path and a `q` listen to.
pub fn queries_are_read()
    ensures { QueriesAreRead }
{}
