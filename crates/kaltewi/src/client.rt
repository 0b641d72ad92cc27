// A client that threads share, and the calls on it.

/// A client, which threads share by reference, with a seat for each ring's capacity. Its calls lock it,
/// each for that call alone, and wake whoever waits.
///
/// ```rust
/// pub(crate) fn open(alloc: Global) -> Result<(Client, Vec<Seat>), ClientError> {
///     Client::open(alloc, 1, &[64, 8], Limits::full())
/// }
///
/// fn open_later(rt: &impl Wait, client: &Client) -> Result<Seat, ClientError> {
///     client.open_seat(rt, 8)
/// }
///
/// fn seats_left(seats: usize) -> usize {
///     MAX_SEATS.saturating_sub(seats)
/// }
///
/// fn connect(rt: &impl Wait, client: &Client) -> Result<Outcome, ClientError> {
///     client.connected(rt)
/// }
///
/// fn connect_locked(rt: &impl Wait, client: &Client) -> Result<Outcome, ClientError> {
///     let mut shared = client.shared.lock(rt);
///     let outcome = shared.connected();
///     client.notify(shared);
///     outcome
/// }
///
/// fn wait(rt: &impl Wait, client: &Client, seat: &mut Seat) -> Result<bool, ClientError> {
///     client.wait(rt, seat)
/// }
///
/// fn wait_to_send(rt: &impl Wait, client: &Client) -> Result<Option<ClientMessage>, ClientError> {
///     client.wait_outgoing(rt)
/// }
///
/// fn wake_all(rt: &impl Wait, client: &Client) {
///     client.wake(rt);
///     client.stop(rt);
/// }
/// ```
pub use rt_client::{Client, MAX_SEATS};

/// Gives each client that it opens a number of its own.
///
/// ```rust
/// fn open_numbered(alloc: Global) -> Result<(Client, Vec<Seat>), ClientError> {
///     let mut numbers = ClientNumbers::new();
///     numbers.open(alloc, &[8], Limits::full())
/// }
/// ```
pub use rt_client::ClientNumbers;

/// What a client's lock keeps. A call of a seat is answered by the number of the new listener or
/// request; the others are those of whoever holds the connection.
///
/// ```rust
/// pub(crate) fn listen(
///     shared: &mut Shared,
///     seat: &mut Seat,
///     query: Query,
/// ) -> Result<u64, ClientError> {
///     shared.listen(seat, query)
/// }
///
/// fn end_listener(shared: &mut Shared, seat: &mut Seat, listener: u64) -> Result<(), ClientError> {
///     shared.unlisten(seat, listener)
/// }
///
/// fn set(shared: &mut Shared, seat: &mut Seat, path: Path, tree: Tree) -> Result<u64, ClientError> {
///     shared.set(seat, path, tree)
/// }
///
/// fn update(
///     shared: &mut Shared,
///     seat: &mut Seat,
///     entries: Vec<(Path, Tree)>,
/// ) -> Result<u64, ClientError> {
///     shared.update(seat, entries)
/// }
///
/// fn remove(shared: &mut Shared, seat: &mut Seat, path: Path) -> Result<u64, ClientError> {
///     shared.remove(seat, path)
/// }
///
/// fn remove_at_end(shared: &mut Shared, seat: &mut Seat, path: Path) -> Result<u64, ClientError> {
///     let tree = Tree::null();
///     shared.on_disconnect(seat, Action::Put { path, tree })
/// }
///
/// fn keep_at_end(shared: &mut Shared, seat: &mut Seat, path: Path) -> Result<u64, ClientError> {
///     shared.cancel_disconnect(seat, path)
/// }
///
/// pub(crate) fn receive(shared: &mut Shared, message: ServerMessage) -> Result<Outcome, ClientError> {
///     shared.server_message(message)
/// }
///
/// fn show_connection(rt: &impl Print, shared: &mut Shared) -> Result<()> {
///     let (has_message, kept) = (shared.take_outgoing()?.is_some(), shared.cover()?.len());
///     let is_ended = shared.disconnected()? == Outcome::Done;
///     println!(rt; "to be sent: {has_message}, kept: {kept}, ended: {is_ended}")?;
///     Ok(())
/// }
///
/// fn rows_shown(shared: &Shared, listener: u64) -> Result<Option<usize>, ClientError> {
///     match shared.view(listener)? {
///         Some(shown) => Ok(Some(shown.rows().len())),
///         None => Ok(None),
///     }
/// }
///
/// fn new_id(shared: &mut Shared, now_ms: u64, random: [u8; 12]) -> Result<[u8; 20], PushError> {
///     shared.push_key(now_ms, random)
/// }
///
/// fn open_more(shared: &mut Shared, capacity: usize) -> Result<Seat, ClientError> {
///     shared.open_seat(capacity)
/// }
///
/// fn open_alone(alloc: Global) -> Result<(Shared, Vec<Seat>), ClientError> {
///     Shared::open(alloc, 2, &[1], Limits::full())
/// }
///
/// fn is_due(shared: &mut Shared, seat: &Seat) -> bool {
///     let is_due = shared.is_due(seat);
///     shared.stop();
///     is_due && shared.is_stopped()
/// }
///
/// fn is_sent(shared: &mut Shared) -> Result<bool, ClientError> {
///     match shared.try_outgoing() {
///         Some(answer) => Ok(answer?.is_some()),
///         None => Ok(false),
///     }
/// }
///
/// fn has_failed(shared: &Shared) -> bool {
///     shared.has_failed()
/// }
/// ```
pub use rt_client::Shared;

/// A thread's own end of a client. What waits for it comes into its ring under the lock, and is taken
/// from there with none.
///
/// ```rust
/// pub(crate) fn settle(shared: &mut Shared, seat: &mut Seat) -> Result<(), ClientError> {
///     shared.settle(seat)
/// }
///
/// pub(crate) fn next_item(seat: &mut Seat) -> Option<Item> {
///     seat.next()
/// }
///
/// fn hear(seat: &mut Seat, heard: &mut Heard) {
///     seat.hand_out(heard);
/// }
///
/// fn take_all<R: Wait>(rt: &R, client: &Client, seat: &mut Seat) -> Result<bool, ClientError> {
///     let taken = seat.for_each(rt, client, |item| match item {
///         Item::Batch(_) => Err(()),
///         Item::Receipt(_) | Item::Settled { .. } | Item::Cancelled { .. } => Ok(()),
///     })?;
///     Ok(taken.is_ok())
/// }
/// ```
pub use rt_client::Seat;

/// A seat that was not closed, handed back, and why.
///
/// ```rust
/// fn close(shared: &mut Shared, seat: Seat) -> Option<ClientError> {
///     match shared.close_seat(seat) {
///         Ok(()) => None,
///         Err(Unclosed { seat: _, why }) => Some(why),
///     }
/// }
/// ```
pub use rt_client::Unclosed;

/// A seat's call as a value. It is a step of the core, under the seat's number.
///
/// ```rust
/// fn listen_to(query: Query) -> Call {
///     Call::Listen { query }
/// }
///
/// fn is_of_first(alloc: Global, call: &Call) -> Result<bool, AllocError> {
///     Ok(is_listen(&call.step(alloc, 1)?))
/// }
///
/// fn listen_as_step(query: Query) -> Step {
///     listen_to(query).into_step(1)
/// }
/// ```
pub use rt_client::Call;

/// Makes a seat's call: one step of the core, whose receipt comes into the seat's ring behind all
/// that waited. `try_call` hands the call back where there is no room for that.
///
/// ```rust
/// fn make_call(shared: &mut Shared, seat: &mut Seat, call: Call) -> Result<Done, ClientError> {
///     with_seat(shared, seat, call)
/// }
///
/// fn call_again(shared: &mut Shared, seat: &mut Seat, call: Call) -> Result<Done, ClientError> {
///     match try_call(shared, seat, call) {
///         Ok(done) => Ok(done),
///         Err(
///             Uncalled {
///                 call: Some(call),
///                 why: ClientError::MailboxFull,
///             },
///         ) => {
///             seat.hand_out(&mut Heard { any: false });
///             with_seat(shared, seat, call)
///         }
///         Err(Uncalled { call: _, why }) => Err(why),
///     }
/// }
///
/// fn try_call_locked(
///     rt: &impl Wait,
///     client: &Client,
///     seat: &mut Seat,
///     call: Call,
/// ) -> Result<Done, Uncalled> {
///     client.try_call(rt, seat, call)
/// }
///
/// fn show_done(rt: &impl Print, done: Done) -> Result<()> {
///     let is_done = done.outcome == Outcome::Done;
///     println!(rt; "done: {is_done}, number {}", done.given.unwrap_or(0))?;
///     Ok(())
/// }
/// ```
pub use rt_client::{Done, Uncalled, try_call, with_seat};

/// Makes a step that is neither a seat's call nor its end.
///
/// ```rust
/// fn connect_core(shared: &mut Shared) -> Result<Done, ClientError> {
///     with_core(shared, Step::Connected)
/// }
/// ```
pub use rt_client::with_core;

/// Who takes what a seat is told. `after_item` says in contracts what it is after an item.
///
/// ```rust
/// #[derive(Drop)]
/// struct Heard {
///     any: bool,
/// }
///
/// impl Sink for Heard {
///     ghost after_item = { λ heard _. record heard { any = true } };
///
///     fn take(&mut self, item: Item) {
///         drop(item);
///         self.any = true;
///     }
/// }
///
/// fn hear(seat: &mut Seat, heard: &mut Heard) {
///     seat.hand_out(heard);
/// }
/// ```
pub use rt_client::Sink;

/// Who says whether a delivery goes on. `may_stop` says in contracts when it may say no, `may_go` when yes.
///
/// ```rust
/// #[derive(Drop)]
/// struct Once {
///     asked: AtomicBool,
/// }
///
/// impl Gate for Once {
///     fn go(&self) -> bool {
///         !self.asked.swap(true, Ordering::SeqCst)
///     }
/// }
/// ```
pub use rt_client::Gate;

/// Settles a seat under the lock and hands out, turn after turn, for as long as the gate says so. It
/// sleeps while there is nothing.
///
/// ```rust
/// fn hear_turns(
///     rt: &impl Wait,
///     client: &Client,
///     seat: &mut Seat,
///     heard: &mut Heard,
/// ) -> Result<(), ClientError> {
///     let asked = AtomicBool::new(false);
///     deliver(rt, client, seat, heard, &Once { asked }, 3)
/// }
///
/// fn hear_once(
///     rt: &impl Wait,
///     client: &Client,
///     seat: &mut Seat,
///     heard: &mut Heard,
/// ) -> Result<(), ClientError> {
///     turn(client.shared.lock(rt), seat, heard)
/// }
/// ```
pub use rt_client::{deliver, turn};

/// The law that threads may share a client, and may be handed seats and what is told. Who starts
/// threads calls it.
///
/// ```rust
/// fn settle_both<R: Threads + Wait + Sync>(
///     rt: &R,
///     client: &Client,
///     first: &mut Seat,
///     second: &mut Seat,
/// ) -> Result<(), ClientError> {
///     // For the prover: what may go to another thread.
///     crossing_law();
///     let (first, second) = thread::join(
///         rt,
///         || client.shared.lock(rt).settle(first),
///         || client.shared.lock(rt).settle(second),
///     );
///     first.and(second)
/// }
/// ```
pub use rt_client::crossing_law;
