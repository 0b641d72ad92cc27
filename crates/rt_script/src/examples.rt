//! Scripts that the prover computes.
ghost use Rattle.rt_script.specs.laws.Scripts.{IdsGoOn, LooksAreShown, RefusedLines, RootListen};

/// A listen on all there is, a push, and a write that shows at once.
pub fn root_listen()
    ensures { RootListen }
{}

/// What a core shows: messages, which are taken out, the listens that are kept, views.
pub fn looks_are_shown()
    ensures { LooksAreShown }
{}

/// What is refused, bad or stale changes nothing.
pub fn refused_lines()
    ensures { RefusedLines }
{}

/// Push ids go on from line to line; a refusal changes nothing.
pub fn ids_go_on()
    ensures { IdsGoOn }
{}
