// The laws of push ids as keys.
ghost use Rattle.rt_client.specs.PushKeys.{IdsAreKeys, KeysRise, NoIntegerKeys};
ghost use Rattle.rt_client.specs.laws.Examples.{FallsAbove, FallsBelow, FourRise};
ghost use Rattle.rt_client.specs.laws.Answering.{AnswersOnce, SettlesUnasked, ComesUnasked, TwiceIsNotOnce};
ghost use Rattle.rt_client.specs.laws.Crossing.{ClientIsShared, ClientIsSent, SeatIsSent, ItemIsSent};
ghost use Rattle.rt_client.specs.laws.Crossing.{MirrorIsSent, SnapshotsAreSent, QueryIsSent, PathIsSent};
ghost use Rattle.rt_client.specs.laws.Crossing.{TreeIsSent, TreeIsShared, KeyIsSent, EntriesAreSent};
ghost use Rattle.rt_client.specs.laws.Crossing.{ActionIsSent, CallIsSent, MessageIsSent, ServerMessageIsSent};
ghost use Rattle.rt_client.specs.laws.Following.{FollowsSettling, FollowsCalls, KnowsAll, FollowsWhatSettles};
ghost use Rattle.rt_client.specs.laws.Following.{FollowsWhatIsCalled, FollowsTheConnection};
ghost use Rattle.rt_client.specs.laws.Following.{FollowsAnothersCall, FollowsAnothersSettling};
ghost use Rattle.rt_client.specs.laws.Following.{FollowsInTheEnd, TrailsAtFirst, TrailsWhatIsOpened};
ghost use Rattle.rt_client.specs.laws.Following.{TrailsAsItSettles, TrailsAsItCalls, TrailsAsItTakes};
ghost use Rattle.rt_client.specs.laws.Following.{TrailsAsItMirrors};
ghost use Rattle.rt_client.specs.laws.Keeping.{StepKeeps, NewIsKept, HandingKeeps, SettlingKeeps};
ghost use Rattle.rt_client.specs.laws.Keeping.{TakingKeeps, NewIsWhole, StepStaysWhole, CallStaysWhole};
ghost use Rattle.rt_client.specs.laws.Keeping.{SettlingStaysWhole, TakingStaysWhole, OpeningStaysWhole};
ghost use Rattle.rt_client.specs.laws.Reflecting.{MadeReflects, UnmadeTellsNothing, StepReflects};
ghost use Rattle.rt_client.specs.laws.Reflecting.{ClosedIsForgotten, MirrorIsCore, MirrorStaysCore};
ghost use Rattle.rt_client.specs.laws.Showing.{StepShows, SnapshotsAreCore, ForeseesAtFirst};
ghost use Rattle.rt_client.specs.laws.Showing.{ForeseesWhatIsOpened, ForeseesWhatSettles};
ghost use Rattle.rt_client.specs.laws.Showing.{ForeseesWhatIsCalled, ForeseesSteps, ForeseesAnothersCall};
ghost use Rattle.rt_client.specs.laws.Showing.{ForeseesAnothersSettling, ForeseesAnothersEnd};
ghost use Rattle.rt_client.specs.laws.Showing.{ForeseesMessages, ForeseesOpenings, ForeseesWhatStays};
ghost use Rattle.rt_client.specs.laws.Showing.{ShowsAll};

use rt_mail::snapshot_law;
use rt_push::ids_rise;
use rt_query::select_laws;
use rt_view::turn_laws;
use rt_world::{holding_law, note_law, refusal_law, sending_law, sound_law, stay_law, steady_law};

/// Each push id is a key, as it stands.
pub fn ids_are_keys()
    ensures { IdsAreKeys }
{}

/// Whatever calls one `PushIds` gets, each id that it gives is above those before it in key order,
/// where the moments used lie in 755,914,244,096 to 4,398,046,511,103: an id of such a moment is no
/// integer key.
pub fn keys_rise()
    ensures rise { KeysRise }
    ensures none { NoIntegerKeys }
{
    // For the prover: the ids of one `PushIds` rise by bytes.
    ids_rise();
}

/// Ids that rise in key order, and some outside the range that fall, which the prover computes.
pub fn push_key_examples()
    ensures rise { FourRise }
    ensures below { FallsBelow }
    ensures above { FallsAbove }
{}

// ---- the law of what threads share, and what is handed to them

/// Threads may share a client, and each may be handed one, a seat, what the seat is told, a mirror,
/// snapshots, what its calls are made of, and what is sent and comes; a tree may be shared. Whoever starts
/// threads over a client calls this, in each function and closure that starts one. What small structs and
/// enums of its own are made of is found by itself; of a list of jobs that is handed out, it may have to
/// be proved.
pub fn crossing_law()
    ensures client { ClientIsShared }
    ensures moved { ClientIsSent }
    ensures seat { SeatIsSent }
    ensures item { ItemIsSent }
    ensures mirror { MirrorIsSent }
    ensures snapshots { SnapshotsAreSent }
    ensures query { QueryIsSent }
    ensures path { PathIsSent }
    ensures tree { TreeIsSent }
    ensures shared { TreeIsShared }
    ensures key { KeyIsSent }
    ensures entries { EntriesAreSent }
    ensures action { ActionIsSent }
    ensures call { CallIsSent }
    ensures message { MessageIsSent }
    ensures server { ServerMessageIsSent }
{}

// ---- the laws of mirrors that follow a lane

/// A mirror that knows what a seat's lane has handed over, and takes, one by one, just what a call or a
/// settling of the seat put into the ring, whatever stood there before, knows again what the lane has
/// handed over; what others do changes nothing of that. So does one that takes all of a ring that it had
/// emptied. Where nothing waits, that is just what the core knows of the seat.
///
/// One that takes what the seat takes from its ring, item by item or all at once, and whenever that is,
/// knows what the lane has handed over once the ring holds nothing more: so it is from the seat's opening
/// on, over its calls and settlings and what others do.
pub fn following_law()
    ensures settling { FollowsSettling }
    ensures calls { FollowsCalls }
    ensures settled { FollowsWhatSettles }
    ensures called { FollowsWhatIsCalled }
    ensures connection { FollowsTheConnection }
    ensures others { FollowsAnothersCall }
    ensures beside { FollowsAnothersSettling }
    ensures first { TrailsAtFirst }
    ensures opened { TrailsWhatIsOpened }
    ensures fills { TrailsAsItSettles }
    ensures asks { TrailsAsItCalls }
    ensures takes { TrailsAsItTakes }
    ensures mirrors { TrailsAsItMirrors }
    ensures end { FollowsInTheEnd }
    ensures all { KnowsAll }
{}

// ---- the laws of what a client's lock keeps

/// Each open seat is told just what the core knows of it. So it is at first, after each step of which the
/// seats' lanes take the receipt and the notes, where lanes hand over what waits, and where a message that
/// is to be sent is taken out. So it is that the core knows nothing of a seat without a lane, as long as
/// open seats alone make calls, and so one can be opened.
pub fn keeping_law()
    ensures new { NewIsKept }
    ensures step { StepKeeps }
    ensures handing { HandingKeeps }
    ensures settling { SettlingKeeps }
    ensures taking { TakingKeeps }
    ensures whole { NewIsWhole }
    ensures made { StepStaysWhole }
    ensures called { CallStaysWhole }
    ensures settled { SettlingStaysWhole }
    ensures taken { TakingStaysWhole }
    ensures opened { OpeningStaysWhole }
{
    // For the prover: what it rests on.
    sound_law();
    steady_law();
    holding_law();
    sending_law();
    reflection_law();
}

/// No receipt waits. So a call that is made puts one receipt into its seat's ring, its own, and a settling
/// puts none: two calls of a seat under the client's own lock are never one, whatever others do beside.
pub fn answering_law()
    ensures once { AnswersOnce }
    ensures settling { SettlesUnasked }
    ensures coming { ComesUnasked }
    ensures twice { TwiceIsNotOnce }
{}

// ---- the laws of what seats are told

/// What a step tells a seat that stays open makes of what the core knew of it what the core knows
/// after the step, also of the seats whose call it is not; a step that is refused or stale tells
/// nothing and changes nothing of it; a seat that is closed is forgotten.
pub fn reflection_law()
    ensures made { MadeReflects }
    ensures unmade { UnmadeTellsNothing }
    ensures step { StepReflects }
    ensures closed { ClosedIsForgotten }
{
    // For the prover: what it rests on.
    select_laws();
    turn_laws();
    stay_law();
    note_law();
    refusal_law();
}

/// After any steps a seat that stays open, and takes all that it is told, in order, knows just what
/// the core knows of it.
pub fn mirror_law()
    ensures empty { MirrorIsCore }
    ensures onward { MirrorStaysCore }
{
    // For the prover: what it rests on.
    reflection_law();
    sound_law();
}

// ---- the law of what snapshots show

/// Snapshots that take, one by one, just what is handed over to their seat foresee what the core shows:
/// once they take what waits for it too, they show that. So it is from the opening of the seat on, whatever
/// stands in its ring, and whatever others do. Where nothing waits, they show of each of the seat's
/// listeners just the query and the view that the core has, and know of no other listener.
pub fn showing_law()
    ensures step { StepShows }
    ensures steps { SnapshotsAreCore }
    ensures first { ForeseesAtFirst }
    ensures opened { ForeseesWhatIsOpened }
    ensures settled { ForeseesWhatSettles }
    ensures called { ForeseesWhatIsCalled }
    ensures made { ForeseesSteps }
    ensures others { ForeseesAnothersCall }
    ensures beside { ForeseesAnothersSettling }
    ensures ended { ForeseesAnothersEnd }
    ensures taken { ForeseesMessages }
    ensures more { ForeseesOpenings }
    ensures stays { ForeseesWhatStays }
    ensures all { ShowsAll }
{
    // For the prover: what it rests on.
    select_laws();
    turn_laws();
    stay_law();
    note_law();
    refusal_law();
    sound_law();
    sending_law();
    reflection_law();
    snapshot_law();
}
