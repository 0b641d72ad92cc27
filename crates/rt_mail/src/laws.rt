// The laws of mailboxes and of what is shown.
ghost use Rattle.rt_mail.specs.laws.InOrder.{HandsOverInOrder, MirrorsWhatIsHandedOver};
ghost use Rattle.rt_mail.specs.laws.InOrder.{CallsAreMade};
ghost use Rattle.rt_mail.specs.laws.Replays.{ChildrenAreReplayed, RequestsAreLeftOpen};
ghost use Rattle.rt_mail.specs.laws.Replays.{NumbersRise};
ghost use Rattle.rt_mail.specs.laws.Shows.{SelectsAgain, ShowsTheView};

/// After any calls on a lane and its ring, what was handed over and then what waits is what was queued and
/// signed, in order; the lane's mirror is that of what was handed over; and the contract of
/// [`Lane::flush`](crate::Lane::flush) makes it such a call.
pub fn order_law()
    ensures order { HandsOverInOrder }
    ensures mirror { MirrorsWhatIsHandedOver }
    ensures made { CallsAreMade }
{}

/// After any items a mirror's children of a listener are what that listener's own items make of them,
/// its requests are those that are unsettled, and both stand by number, each once.
pub fn replay_law()
    ensures children { ChildrenAreReplayed }
    ensures requests { RequestsAreLeftOpen }
    ensures numbers { NumbersRise }
{}

/// A batch tells a view as a tree. What a query shows of that tree is the view itself, with its rows in
/// order, so [`Snapshot::shown`](crate::Snapshot::shown) is the view that the core has.
pub fn snapshot_law()
    ensures again { SelectsAgain }
    ensures shows { ShowsTheView }
{}
