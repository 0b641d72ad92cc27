// The laws of the world.
ghost use Rattle.rt_world.specs.laws.World.{HeadlineHolds, CoverChangesFewViews, OnlyNamedChange};
ghost use Rattle.rt_world.specs.laws.World.{LeafNamesAll, LeafReadsNamed, TouchedIsSeen, OthersKeepViews};
ghost use Rattle.rt_world.specs.laws.World.{MessagesAreHeard, ConnectedSendsAll, NumbersStayWithin};
ghost use Rattle.rt_world.specs.laws.World.{IsWritten, IsBrought};
ghost use Rattle.rt_world.specs.laws.Touch.{SeenAreChildren, UnmetAreSeen, UnnamedAreSeen, TouchIsEnough};
ghost use Rattle.rt_world.specs.laws.Touch.{ElseFewAreSeen};
ghost use Rattle.rt_world.specs.laws.Holds.{CoverFollows, DeltaFollows, EmptyIsSteady, StaysSteady};
ghost use Rattle.rt_world.specs.laws.Holds.{WorldsAreSteady, StaysCalled, EmptyIsWithin, StaysWithin};
ghost use Rattle.rt_world.specs.laws.Holds.{HeadlineOfSound, TakenIsSound, TakenIsSteady};
ghost use Rattle.rt_world.specs.laws.Makes.{StepTells};
ghost use Rattle.rt_world.specs.laws.Steps.{WorldsAreSound, WorldsAreCalled, StaysSound, NotRefusedIsAllowed};
ghost use Rattle.rt_world.specs.laws.Steps.{ListenersStay, ChangesHaveNoEntries, ListensStay, UnmetStays};
ghost use Rattle.rt_world.specs.laws.Steps.{RenewedIsOne, StaysReached, PushIsBrought, ListenBringsNothing};
ghost use Rattle.rt_world.specs.laws.Steps.{KeptMayBePut, WriteIsPending, EndingIsNotPending};
ghost use Rattle.rt_world.specs.laws.Steps.{SettledIsNotPending, UnseatedIsPending, SettledOnceTold};
ghost use Rattle.rt_world.specs.laws.Steps.{BatchesAreNotes, StillIsQuiet};
ghost use Rattle.rt_world.specs.laws.Made.{StillLeavesListens, AcceptedIsMade, RefusedIsMade, PushIsMade};
ghost use Rattle.rt_world.specs.laws.Made.{PushMayPush, WriteIsMade, EndingIsMade, ConnectedIsMade};
ghost use Rattle.rt_world.specs.laws.Made.{DisconnectedIsMade, WritesAreShallow, NextIsAbovePending};
ghost use Rattle.rt_world.specs.laws.Listened.{ListenIsMade, UnlistenIsMade, CloseSeatIsMade, RevokedIsMade};
ghost use Rattle.rt_world.specs.laws.Listened.{ListenMayAdd, UnlistenMayRemove, CloseSeatMayRemove};
ghost use Rattle.rt_world.specs.laws.Listened.{RevokedMayRevoke};
ghost use Rattle.rt_world.specs.laws.Refused.{RefusedIsNothing, StaleIsNothing, OtherIsMade, RefusalIsOfKind};
ghost use Rattle.rt_world.specs.laws.Refused.{OwnIsNotStale, AcceptedIsStale, RefusedIsStale, RevokedIsStale};
ghost use Rattle.rt_world.specs.laws.Refused.{ListenNeedsTag, UnlistenNeedsTag, CloseSeatNeedsTag};
ghost use Rattle.rt_world.specs.laws.Refused.{RevokedNeedsTag};

/// After any steps the fewest listens are kept, and each listener's view is its query over what they
/// brought, overlaid by the pending writes, and turns by what is told of it. Of one step of a sound
/// world: what it answers and leaves, said of the worlds before and after.
pub fn headline_law()
    ensures runs { HeadlineHolds }
    ensures steps { StepTells }
{}

/// In a sound world a step that registers or ends listeners changes the cover as rt_cover says, and
/// starts and stops the listens that this tells. Of a listener that stays it changes the view only where
/// that one had another form's window and now has one that does not come from it; it stays primed.
pub fn cover_law()
    ensures changes { CoverFollows }
    ensures told { DeltaFollows }
    ensures views { CoverChangesFewViews }
{}

/// Between steps: of what a listener sees that is not moved to another form's window, a step changes
/// the children that its entries name, unless one of them sits at or above the listener's path. A view
/// that is touched with these is the view from scratch, and where a leaf comes or goes, one that takes
/// all its children anew reads no more. Such a listener stays as it was where no entry overlaps its path.
pub fn named_law()
    ensures named { OnlyNamedChange }
    ensures leaf { LeafNamesAll }
    ensures reads { LeafReadsNamed }
    ensures touched { TouchedIsSeen }
    ensures others { OthersKeepViews }
{}

/// What holds of one step, for whoever holds views of listeners that are not moved, each over a tree
/// with the children that are seen: where an object stays, a view that is touched with the named
/// children is what is seen then, and elsewhere its children and those that are seen then are no more
/// than these.
pub fn touch_law()
    ensures children { SeenAreChildren }
    ensures unmet { UnmetAreSeen }
    ensures unnamed { UnnamedAreSeen }
    ensures touched { TouchIsEnough }
    ensures few { ElseFewAreSeen }
{}

/// From a sound world: the messages to be sent are those that were left and those that the steps made,
/// and the server that hears them keeps just the kept listens; once a connection is opened they are
/// all listens by tag, and then all unsettled requests by number.
pub fn message_law()
    ensures heard { MessagesAreHeard }
    ensures connected { ConnectedSendsAll }
{}

/// Steps lead from a sound world within its limits to one: no more listeners and requests than the
/// limits say, and no number above the last one.
pub fn limit_law()
    ensures { NumbersStayWithin }
{}

/// After any steps, from any world, the pending writes are those of before, with those that the steps
/// made and without those that they settled; and between steps, where all listeners are plain, what
/// they brought is that of before with the pushes that the steps took in, as long as no listen is
/// lost.
pub fn plain_law()
    ensures written { IsWritten }
    ensures brought { IsBrought }
{}

/// What holds of each world that steps lead to, and after each step.
pub fn sound_law()
    ensures worlds { WorldsAreSound }
    ensures called { WorldsAreCalled }
    ensures next { StaysSound }
{}

/// Of a step that is not refused no condition holds that a refusal has.
pub fn refusal_law()
    ensures { NotRefusedIsAllowed }
{}

/// What a step leaves as it is: the listeners where it registers and ends none, the listens where the
/// listeners stay, a listener that is not moved and whose path no entry of the step overlaps, and of each
/// other its number, seat and query. A step that registers or ends listeners has no entries.
pub fn stay_law()
    ensures listeners { ListenersStay }
    ensures entries { ChangesHaveNoEntries }
    ensures listens { ListensStay }
    ensures unmet { UnmetStays }
    ensures renewed { RenewedIsOne }
{}

/// After a step what is brought has the forms of the listeners, in order; a kept plain listen reaches
/// each region, and each window is of a registered form. Where that is so, a step that ends no
/// listener changes what is brought by its push alone, and by the form of a new listener; and a push
/// may be put on each kept listen.
pub fn brought_law()
    ensures next { StaysReached }
    ensures pushed { PushIsBrought }
    ensures listen { ListenBringsNothing }
    ensures kept { KeptMayBePut }
{}

/// The pending writes of changed requests.
pub fn pending_law()
    ensures write { WriteIsPending }
    ensures ending { EndingIsNotPending }
    ensures settled { SettledIsNotPending }
    ensures unseated { UnseatedIsPending }
{}

/// The notes of a step, request by request and listener by listener.
pub fn note_law()
    ensures settled { SettledOnceTold }
    ensures batches { BatchesAreNotes }
    ensures still { StillIsQuiet }
{}

// ---- what each kind of step leaves, for whoever makes it

/// What any step leaves that registers and ends no listener.
pub fn still_law()
    ensures { StillLeavesListens }
{}

/// A settlement takes the request away, and its write out of the views that its entries meet.
pub fn settled_law()
    ensures accepted { AcceptedIsMade }
    ensures refused { RefusedIsMade }
{}

/// A push goes into what is brought, part by part, and into the views that its entries meet: each
/// listener is told once.
pub fn push_law()
    ensures { PushIsMade }
{}

/// Each entry of a push that is not refused is at or under its part's listen's path, where that is
/// kept, and no deeper than trees are.
pub fn pushed_law()
    ensures { PushMayPush }
{}

/// A request is the last, under the next number, and sent while there is a connection; a write shows
/// in the views that its entries meet. Its entries are no deeper than trees are, and its number is
/// above those of the pending writes.
pub fn asked_law()
    ensures write { WriteIsMade }
    ensures ending { EndingIsMade }
    ensures shallow { WritesAreShallow }
    ensures above { NextIsAbovePending }
{}

/// A connection that opens sends the version and all that is kept and unsettled; one that ends drops
/// what is to be sent.
pub fn connection_law()
    ensures connected { ConnectedIsMade }
    ensures disconnected { DisconnectedIsMade }
{}

/// A new listener is told alone; those that stay when others end are as they were. The listens change
/// as `rt_cover` says.
pub fn listened_law()
    ensures listen { ListenIsMade }
    ensures unlisten { UnlistenIsMade }
    ensures close { CloseSeatIsMade }
    ensures revoked { RevokedIsMade }
{}

/// What holds between steps holds before any step, and after each.
pub fn steady_law()
    ensures empty { EmptyIsSteady }
    ensures next { StaysSteady }
    ensures worlds { WorldsAreSteady }
{}

/// Each part holds on its own, and so does the headline, from any sound world.
pub fn holding_law()
    ensures called { StaysCalled }
    ensures empty { EmptyIsWithin }
    ensures within { StaysWithin }
    ensures headline { HeadlineOfSound }
{}

/// A step changes the cover of a sound world as `rt_cover` says, and starts and stops what this
/// tells.
pub fn following_law()
    ensures cover { CoverFollows }
    ensures told { DeltaFollows }
{}

/// Where a step is not refused, neither does `rt_cover` refuse its change.
pub fn covered_law()
    ensures listen { ListenMayAdd }
    ensures unlisten { UnlistenMayRemove }
    ensures close { CloseSeatMayRemove }
    ensures revoked { RevokedMayRevoke }
{}

/// What a step answers: refused or stale it leaves the world as it was, else it is made.
pub fn answer_law()
    ensures refused { RefusedIsNothing }
    ensures stale { StaleIsNothing }
    ensures made { OtherIsMade }
{}

/// Which refusals a step can have, and when it is stale.
pub fn kind_law()
    ensures refusal { RefusalIsOfKind }
    ensures own { OwnIsNotStale }
    ensures accepted { AcceptedIsStale }
    ensures refused { RefusedIsStale }
    ensures revoked { RevokedIsStale }
{}

/// A step needs a tag above the last one just where its change of the cover lacks one.
pub fn tag_law()
    ensures listen { ListenNeedsTag }
    ensures unlisten { UnlistenNeedsTag }
    ensures close { CloseSeatNeedsTag }
    ensures revoked { RevokedNeedsTag }
{}

/// A world whose messages to be sent are others is as sound, and as steady.
pub fn sending_law()
    ensures sound { TakenIsSound }
    ensures steady { TakenIsSteady }
{}
