// A link, which carries a client's connection over a WebSocket in a thread of its own.

/// A client and the link that keeps its connection: one thread does, and sleeps while there is nothing to do.
/// Threads share the linked client; each of its calls is the client's call of that name, and wakes the link.
/// Where a connection ends, the next one is waited for: a second at first, and longer each time, up to 30.
/// What was not answered is sent again then.
///
/// ```rust
/// fn open_linked(rt: &impl Net, alloc: Global) -> Result<(Link, Linked, Vec<Seat>), LinkFault> {
///     let (client, seats) = Client::open(alloc, 1, &[64], Limits::full())?;
///     let (link, linked) = Link::open(rt, alloc, client)?;
///     Ok((link, linked, seats))
/// }
///
/// fn carry_all<R: Net + Wait + Clock + RandomSource>(
///     rt: &R,
///     alloc: Global,
///     link: &mut Link,
///     linked: &Linked,
///     server: SocketAddr,
/// ) -> Result<(), LinkFault> {
///     for _ in rt.forever() {
///         if let LinkEnd::Stopped = link.keep(rt, alloc, linked, rt, server)? {
///             break;
///         }
///     }
///     Ok(())
/// }
///
/// fn carry_once<R: Net + Wait + Clock + RandomSource>(
///     rt: &R,
///     alloc: Global,
///     link: &mut Link,
///     linked: &Linked,
///     server: SocketAddr,
/// ) -> Result<LinkEnd, LinkFault> {
///     link.run(rt, alloc, linked, rt, server)
/// }
///
/// fn due_millis(link: &Link) -> u64 {
///     link.next_wait()
/// }
///
/// fn stop_all(rt: &impl Wait, linked: &Linked) {
///     linked.stop(rt);
/// }
///
/// fn listen_linked(
///     rt: &impl Wait,
///     linked: &Linked,
///     seat: &mut Seat,
///     query: Query,
/// ) -> Result<u64, ClientError> {
///     linked.ask(rt, seat, Call::listen(query))
/// }
///
/// fn write_linked(
///     rt: &impl Wait,
///     linked: &Linked,
///     seat: &mut Seat,
///     path: Path,
///     tree: Tree,
/// ) -> Result<u64, ClientError> {
///     linked.ask(rt, seat, Call::set(path, tree))
/// }
///
/// fn write_and_wait<R: Wait + Clock>(
///     rt: &R,
///     linked: &Linked,
///     seat: &mut Seat,
///     path: Path,
///     tree: Tree,
/// ) -> Result<Option<Answer>, ClientError> {
///     let request = linked.ask(rt, seat, Call::set(path, tree))?;
///     linked.answer(rt, seat, request, Duration::from_secs(10))
/// }
///
/// fn wait_for_first<R: Wait + Clock>(
///     rt: &R,
///     linked: &Linked,
///     seat: &mut Seat,
///     seen: &mut Snapshots,
///     listener: u64,
/// ) -> Result<bool, ClientError> {
///     linked.wait_value(rt, seat, seen, listener, Duration::from_secs(10))
/// }
///
/// fn show_each<R: Print + Wait>(rt: &R, linked: &Linked, seat: &mut Seat) -> Result<()> {
///     linked.for_each(rt, seat, |item| show_news(rt, item))?
/// }
///
/// fn push_linked<R: Wait + Clock + RandomSource>(
///     rt: &R,
///     alloc: Global,
///     linked: &Linked,
///     seat: &mut Seat,
///     path: &Path,
///     tree: Tree,
/// ) -> Result<u64, Unpushed> {
///     let pushed: Pushed = linked.push(rt, alloc, seat, path, tree)?;
///     let request = pushed.request;
///     drop(pushed);
///     Ok(request)
/// }
///
/// fn new_key<R: Wait + Clock + RandomSource>(
///     rt: &R,
///     alloc: Global,
///     linked: &Linked,
/// ) -> Result<Key, Unpushed> {
///     linked.push_key(rt, alloc)
/// }
///
/// fn connect_for<R: Threads + Net + Wait + Clock + RandomSource + Sync>(
///     rt: &R,
///     alloc: Global,
///     server: SocketAddr,
/// ) -> Result<bool, LinkFault> {
///     let tell = |_: &Linked, _: &LinkEnd| {};
///     Linked::connect_while(
///         rt,
///         alloc,
///         server,
///         tell,
///         |linked| linked.client.open_seat(rt, 8).is_ok(),
///     )
/// }
///
/// fn keep_for_two<R: Threads + Net + Wait + Clock + RandomSource + Sync>(
///     rt: &R,
///     alloc: Global,
///     link: &mut Link,
///     linked: &Linked,
///     server: SocketAddr,
/// ) -> Result<(), LinkFault> {
///     let (kept, ((), ())) = linked.keep_while(
///         rt,
///         alloc,
///         link,
///         server,
///         |_, _| {},
///         |linked| linked.both(rt, |linked| linked.stop(rt), |linked| linked.ring()),
///     );
///     kept
/// }
///
/// fn nothing_heard(alloc: Global) -> (Mirror, Answered) {
///     (Mirror::new(alloc), Answered::none())
/// }
///
/// fn write_heard(
///     rt: &impl Wait,
///     linked: &Linked,
///     seat: &mut Seat,
///     heard: &mut Mirror,
///     answers: &mut Answered,
///     (path, tree): (Path, Tree),
/// ) -> Result<Done, ClientError> {
///     let action = Action::Put { path, tree };
///     linked.call(rt, seat, heard, answers, Call::Write { action })
/// }
///
/// fn wait_for_all<R: Wait + Clock>(
///     rt: &R,
///     linked: &Linked,
///     seat: &mut Seat,
///     heard: &mut Mirror,
///     answers: &mut Answered,
/// ) -> Result<usize, ClientError> {
///     linked.wait_answers(rt, seat, heard, answers, Duration::from_secs(10))
/// }
///
/// fn stop_answered<R: Wait + Clock>(
///     rt: &R,
///     linked: &Linked,
///     seat: &mut Seat,
///     heard: &mut Mirror,
///     answers: &mut Answered,
/// ) -> Result<usize, ClientError> {
///     linked.stop_when_answered(rt, seat, heard, answers, Duration::from_secs(10))
/// }
///
/// fn remove_and_ring(
///     rt: &impl Wait,
///     linked: &Linked,
///     seat: &mut Seat,
///     path: Path,
/// ) -> Result<u64, ClientError> {
///     let removal = linked.client.remove(rt, seat, path)?;
///     linked.ring();
///     Ok(removal)
/// }
///
/// fn not_taken(link: &Link) -> u64 {
///     link.passed_over()
/// }
/// ```
pub use rt_link::{Answer, Answered, Link, LinkEnd, LinkFault, Linked, Pushed, Unpushed};

/// What wakes a link, for a thread that makes no call.
///
/// ```rust
/// fn bell_of(linked: &Linked) -> Result<Bell, AllocError> {
///     linked.bell()
/// }
///
/// fn ring_and_clone(bell: &Bell) -> Result<Bell, AllocError> {
///     bell.ring();
///     bell.try_clone()
/// }
/// ```
pub use rt_link::Bell;

/// The law that threads may share a linked client, and may be handed a link. Who starts threads over them
/// calls it; `crossing_law` says the same of seats and of what they are told.
///
/// ```rust
/// fn wake_beside<R: Threads>(rt: &R, link: &mut Link, linked: &Linked) -> Result<(), LinkFault> {
///     // For the prover: what may go to another thread.
///     link_crossing_law();
///     let (woken, ()) = thread::join(rt, || link.wait(Duration::from_secs(60)), || linked.ring());
///     woken
/// }
/// ```
pub use rt_link::link_crossing_law;

/// One connection, for a loop of one's own, which does what else it has to do between turns.
///
/// ```rust
/// fn shake_hands<R: Clock, S: Read + Write + Drop, N: RandomSource + Drop>(
///     rt: &R,
///     alloc: Global,
///     random: N,
///     stream: S,
/// ) -> Result<Result<Connection<S, N>, Lost>, LinkFault> {
///     Connection::new(rt, alloc, random, stream, "ws://127.0.0.1/")
/// }
///
/// fn pause_after(turn: &LinkTurn) -> Option<Duration> {
///     match turn {
///         LinkTurn::Idle(most) => Some(*most),
///         LinkTurn::More => Some(Duration::ZERO),
///         LinkTurn::NotOpened(_) | LinkTurn::Ended(_) => None,
///     }
/// }
///
/// fn turn_once<R: Wait + Clock, S: Read + Write + Drop, N: RandomSource + Drop>(
///     rt: &R,
///     client: &Client,
///     connection: &mut Connection<S, N>,
/// ) -> Result<Option<Duration>, LinkFault> {
///     let turn = connection.turn(rt, client)?;
///     let pause = pause_after(&turn);
///     drop(turn);
///     Ok(pause)
/// }
///
/// fn look_at<S: Read + Write + Drop, N: RandomSource + Drop>(
///     connection: &mut Connection<S, N>,
/// ) -> (bool, bool) {
///     let passed = connection.take_passed();
///     let has_unread = passed.iter().any(|why| matches!(why, Passed::Wire(_)));
///     (connection.is_open(), has_unread)
/// }
///
/// fn leave<R: Wait + Clock, S: Read + Write + Drop, N: RandomSource + Drop>(
///     rt: &R,
///     client: &Client,
///     connection: &mut Connection<S, N>,
/// ) -> Result<(), LinkFault> {
///     connection.close(rt, client)
/// }
///
/// fn try_once<R: Net + Wait + Clock + RandomSource>(
///     rt: &R,
///     alloc: Global,
///     link: &mut Link,
///     linked: &Linked,
///     server: SocketAddr,
/// ) -> Result<Option<Lost>, LinkFault> {
///     match link.connect(rt, alloc, rt, server)? {
///         Ok(mut connection) => {
///             let closed = link.close(rt, &linked.client, &mut connection);
///             drop(connection);
///             closed?;
///             Ok(None)
///         }
///         Err(why) => Ok(Some(why)),
///     }
/// }
/// ```
pub use rt_link::{Connection, LinkTurn, Lost, Passed};
