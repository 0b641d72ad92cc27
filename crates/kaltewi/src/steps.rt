// The core alone, with no thread and no lock: steps, and what they answer.

/// The core of a client: it takes one step after another. Refused and stale steps change nothing. One
/// that has lacked memory has failed, and says nothing else from then on.
///
/// ```rust
/// fn core(alloc: Global) -> Core {
///     Core::new(alloc, Limits::full())
/// }
///
/// fn is_refused(core: &Core, step: &Step) -> bool {
///     core.refusal(step).is_some()
/// }
///
/// fn make(core: &mut Core, step: Step) -> Result<Report, CoreError> {
///     core.apply(step)
/// }
///
/// fn show_core(rt: &impl Print, core: &mut Core) -> Result<()> {
///     show_all_kept(rt, core.cover()?)?;
///     let (is_known, has_message) = (core.view(1)?.is_some(), core.take_outgoing().is_some());
///     println!(rt; "known: {is_known}, to be sent: {has_message}")?;
///     Ok(())
/// }
/// ```
pub use rt_sync::Core;

/// The most listeners, the most unsettled requests, and the last number that a listener, a request or
/// a tag may have.
///
/// ```rust
/// fn few() -> Limits {
///     let (listeners, requests, last_number) = (10, 0, 1_000);
///     Limits {
///         listeners,
///         requests,
///         last_number,
///     }
///     .within_full()
/// }
/// ```
pub use rt_world::Limits;

/// One event of the core: a seat's call, a message of the server, or a change of the connection.
///
/// ```rust
/// fn listen(query: Query) -> Step {
///     Step::Listen { seat: 1, query }
/// }
///
/// fn receive(alloc: Global, text: &str) -> Result<Step> {
///     Ok(Step::from(ServerMessage::read(alloc, text)?))
/// }
/// ```
pub use rt_world::Step;

/// What a write sets: one tree at a path, or several, each at its own. Null removes.
///
/// ```rust
/// fn set(path: Path, tree: Tree) -> Step {
///     let action = Action::Put { path, tree };
///     Step::Write { seat: 1, action }
/// }
///
/// fn update(entries: Entries) -> Step {
///     let action = Action::Merge { entries };
///     Step::Write { seat: 1, action }
/// }
///
/// fn count_due(alloc: Global, action: &Action) -> Result<usize> {
///     if action.has_overlap() || action.is_empty() || action.is_too_deep() {
///         return Ok(0);
///     }
///     Ok(action.entries(alloc)?.as_slice().len())
/// }
/// ```
pub use rt_world::Action;

/// What is to be done when the connection ends: a write, or that none is made at and below a path.
///
/// ```rust
/// fn remove_at_end(path: Path) -> Step {
///     let tree = Tree::null();
///     let ending = Ending::Run(Action::Put { path, tree });
///     Step::OnDisconnect { seat: 1, ending }
/// }
/// ```
pub use rt_world::Ending;

/// What a step answers: its outcome, the number of the new listener or request, and what the seats
/// are told.
///
/// ```rust
/// fn make(core: &mut Core, step: Step) -> Result<Report, CoreError> {
///     core.apply(step)
/// }
///
/// fn show_report(rt: &impl Print, report: &Report) -> Result<()> {
///     let (number, told) = (report.given.unwrap_or(0), first_told(&report.notes));
///     println!(rt; "made: {}, number {number}, {told}", is_made(report))?;
///     Ok(())
/// }
/// ```
pub use rt_world::Report;

/// Whether a step was made, or changed nothing since it came too late.
///
/// ```rust
/// fn is_made(report: &Report) -> bool {
///     match report.outcome {
///         Outcome::Done => true,
///         Outcome::Stale => false,
///     }
/// }
/// ```
pub use rt_world::Outcome;

/// What the seats are told of a step, in order.
///
/// ```rust
/// fn first_told(notes: &Notes) -> &'static str {
///     notes.as_slice().first().map_or("nothing is told", kind_of)
/// }
///
/// fn untold(alloc: Global) -> Notes {
///     Notes::of(Vec::new(alloc))
/// }
/// ```
pub use rt_world::Notes;

/// What one seat is told.
///
/// ```rust
/// fn kind_of(note: &Note) -> &'static str {
///     match &note.body {
///         Body::Settled { .. } => "a request is settled",
///         Body::Cancelled { .. } => "a listener has ended",
///         Body::Batch(_) => "a view has changed",
///     }
/// }
/// ```
pub use rt_world::{Body, Note};

/// The listens that are kept, each with its tag, its query, and a listener that needs it.
///
/// ```rust
/// fn show_kept(rt: &impl Print, kept: &Kept) -> Result<()> {
///     let (tag, path, listener) = (kept.tag, kept.query.path(), kept.listener);
///     println!(rt; "kept under {tag}: {path} for {listener}")?;
///     Ok(())
/// }
///
/// fn show_all_kept(rt: &impl Print, list: KeptList) -> Result<()> {
///     for kept in list.as_slice() {
///         show_kept(rt, kept)?;
///     }
///     println!(rt; "listens: {}", list.into_vec().len())?;
///     Ok(())
/// }
/// ```
pub use rt_cover::{Kept, KeptList};

/// Makes many steps, one after another, and answers each in order. The headline of `docs/THEOREM.md`
/// is the contract of `run`.
///
/// ```rust
/// fn run_all(alloc: Global, core: &mut Core, steps: Vec<Step>) -> Result<Answers, NoRoom> {
///     run(alloc, core, steps)
/// }
///
/// fn are_due(answered: Result<Answers, NoRoom>) -> bool {
///     match answered {
///         Ok(answers) => answers.as_slice().iter().all(|answer| answer.is_ok()),
///         Err(refused) => refused.answers() == 0,
///     }
/// }
/// ```
pub use rt_sync::{Answers, run};

/// The same with room for the answers that was reserved before: nothing is refused then. `NoRoom`
/// says for how many answers there is none.
///
/// ```rust
/// fn run_reserved(alloc: Global, core: &mut Core, steps: Vec<Step>) -> Result<Answers, NoRoom> {
///     let room = Room::new(alloc, steps.len())?;
///     Ok(run_in(room, core, steps))
/// }
///
/// fn are_due(answered: Result<Answers, NoRoom>) -> bool {
///     match answered {
///         Ok(answers) => answers.as_slice().iter().all(|answer| answer.is_ok()),
///         Err(refused) => refused.answers() == 0,
///     }
/// }
/// ```
pub use rt_sync::{NoRoom, Room, run_in};
