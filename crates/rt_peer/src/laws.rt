// The laws of the peer.
ghost use Rattle.rt_peer.specs.laws.Orders.{ActionsAreOfKnown, ActionsRise, AfterAnyCalls};
ghost use Rattle.rt_peer.specs.laws.Orders.{ConnectionsRise, ListensAreOfKnown, ListensRise};
ghost use Rattle.rt_peer.specs.laws.Orders.{NextIsLeastFree};
ghost use Rattle.rt_peer.specs.laws.Pushed.{EndsAreByVersion, MessagesAreByVersion, PartsRise};
ghost use Rattle.rt_peer.specs.laws.Pushed.{TurnsAreByVersion};
ghost use Rattle.rt_peer.specs.laws.Runs.{TreeIsWhatWasWritten};
ghost use Rattle.rt_peer.specs.laws.Turns.{LastTurnIsEnd, TurnThenEndIsEnd, TurnsRunSoMany};
ghost use Rattle.rt_peer.specs.laws.Versions.{BeginsOlder, NewerAreKnown, NewerRise, VersionIsToldLast};

/// After any calls the tree is that of before, with each write of a known connection that was not
/// answered with `no`, and each action that a disconnection ran, or a turn of one, put into it in order.
/// Nothing else changes it.
pub fn run_law()
    ensures { TreeIsWhatWasWritten }
{}

/// After any calls on a new peer the numbers of its connections rise strictly, from 1 or above; so what
/// a new connection gets is the least number from 1 that no known one has.
pub fn connections_law()
    ensures rise { AfterAnyCalls ConnectionsRise }
    ensures next { AfterAnyCalls NextIsLeastFree }
{}

/// After any calls on a new peer its listens rise strictly, by connection and tag; its actions rise by
/// connection and number, where several may have one number; all are of known connections.
pub fn orders_law()
    ensures listens { AfterAnyCalls ListensRise }
    ensures listens_of_known { AfterAnyCalls ListensAreOfKnown }
    ensures actions { AfterAnyCalls ActionsRise }
    ensures actions_of_known { AfterAnyCalls ActionsAreOfKnown }
{}

/// After any calls on a new peer, what a message makes it send to a connection that reads version 2 is
/// what it would send to one that reads version 1, but with the pushes as one where there are more: its
/// parts are theirs, in order. A single push is sent as it is, and so is the rest. The same holds of
/// each action that the end of a connection runs, or a turn of it. The tags of such parts rise, so none stands twice.
pub fn pushes_law()
    ensures messages { AfterAnyCalls MessagesAreByVersion }
    ensures ends { AfterAnyCalls EndsAreByVersion }
    ensures turns { AfterAnyCalls TurnsAreByVersion }
    ensures parts { AfterAnyCalls PartsRise }
{}

/// After any calls on a new peer the numbers of the connections that read version 2 rise strictly, and all
/// are known; so a new connection begins with version 1. From then on it reads what it told last: version
/// 2 where that was 2 or more, and version 1 again where it was 1.
pub fn versions_law()
    ensures rise { AfterAnyCalls NewerRise }
    ensures known { AfterAnyCalls NewerAreKnown }
    ensures begins { AfterAnyCalls BeginsOlder }
    ensures told { VersionIsToldLast }
{}

/// The end of a connection in turns, with no other call between them, leaves what its end at once leaves, and
/// sends what that sends, in the same order. Each turn but the last runs as many requests as it may.
pub fn turns_law()
    ensures same { TurnThenEndIsEnd }
    ensures last { LastTurnIsEnd }
    ensures so_many { TurnsRunSoMany }
{}
