//! Laws of messages, for every text and every message.
ghost use Rattle.rt_wire.specs.Grammar.{ServerGrammar, ClientGrammar};
ghost use Rattle.rt_wire.specs.laws.Examples.{AnswersAreRead, PrefixesAreNoMessages, KindsAreUnknown};
ghost use Rattle.rt_wire.specs.laws.Examples.{NumbersHaveBounds, FieldsComeFirst, SpellingsAreEntries};
ghost use Rattle.rt_wire.specs.laws.Examples.{DepthIsBounded, PartsAreRead, PartsHaveFaults, HelloIsRead};
ghost use Rattle.rt_wire.specs.laws.Examples.{RequestsAreRead, QueriesHaveFaults, CutsAreRead};
ghost use Rattle.rt_wire.specs.laws.Examples.{MessagesAreWritten, NothingElseIsSaid, NothingElseIsReadBack};

/// A message of the server is read of just the texts that say it.
pub fn server_grammar()
    ensures { ServerGrammar }
{}

/// A message of the client is read of just the texts that say it.
pub fn client_grammar()
    ensures { ClientGrammar }
{}

// ---- messages that the prover computes

/// The order of members is free, of equal names the last counts, and others are ignored.
pub fn answers_are_read()
    ensures { AnswersAreRead }
{}

/// No text that breaks off is a message.
pub fn prefixes_are_no_messages()
    ensures { PrefixesAreNoMessages }
{}

/// What is no object, or of no kind of the server, is refused as such.
pub fn kinds_are_unknown()
    ensures { KindsAreUnknown }
{}

/// Numbers are whole, from 1 to 9007199254740991.
pub fn numbers_have_bounds()
    ensures { NumbersHaveBounds }
{}

/// A bad field comes before a bad tree, and each path before each tree.
pub fn fields_come_first()
    ensures { FieldsComeFirst }
{}

/// Two spellings of a path are two entries.
pub fn spellings_are_entries()
    ensures { SpellingsAreEntries }
{}

/// Nothing stands under more than 32 keys, and no JSON nests deeper than 127 levels.
pub fn depth_is_bounded()
    ensures { DepthIsBounded }
{}

/// The parts of a push are read in their order.
pub fn parts_are_read()
    ensures { PartsAreRead }
{}

/// What parts must be, and that a bad field of any part comes before a bad tree of any.
pub fn parts_have_faults()
    ensures { PartsHaveFaults }
{}

/// The version that a client tells is read.
pub fn hello_is_read()
    ensures { HelloIsRead }
{}

/// What the client asks for is read.
pub fn requests_are_read()
    ensures { RequestsAreRead }
{}

/// What `q` must not be.
pub fn queries_have_faults()
    ensures { QueriesHaveFaults }
{}

/// A range of children by the value below them is read.
pub fn cuts_are_read()
    ensures { CutsAreRead }
{}

/// Members are written in the order of the bytes of their names.
pub fn messages_are_written()
    ensures { MessagesAreWritten }
{}

/// A text says one message alone, or none.
pub fn nothing_else_is_said()
    ensures { NothingElseIsSaid }
{}

/// What is read back is no other message, and has no entry less.
pub fn nothing_else_is_read_back()
    ensures { NothingElseIsReadBack }
{}
