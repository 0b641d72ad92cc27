// The messages of a connection, and a server in the same process.

/// A message of the server, which is read from its text.
///
/// ```rust
/// fn server_message(alloc: Global) -> Result<ServerMessage, WireError> {
///     ServerMessage::read(alloc, r#"{"id":1,"k":"no","why":"denied"}"#)
/// }
///
/// fn refusal_text(alloc: Global, id: u64, why: Reason) -> Result<String, AllocError> {
///     ServerMessage::Refused { id, why }.text(alloc)
/// }
/// ```
pub use rt_wire::ServerMessage;

/// Why the server refuses a request or ends a listen, in its own words.
///
/// ```rust
/// fn why(message: &ServerMessage) -> Option<&Reason> {
///     match message {
///         ServerMessage::Refused { why, .. } | ServerMessage::Revoked { why, .. } => Some(why),
///         ServerMessage::Data { .. }
///         | ServerMessage::DataMerge { .. }
///         | ServerMessage::Push { .. }
///         | ServerMessage::Accepted { .. } => None,
///     }
/// }
///
/// fn denied(alloc: Global) -> Result<Reason, AllocError> {
///     Ok(Reason::of(String::from_str(alloc, "denied")?))
/// }
///
/// fn show_refusal(rt: &impl Print, alloc: Global) -> Result<()> {
///     let message = server_message(alloc)?;
///     println!(rt; "why: {}", why(&message).map_or("none", |why| why.text()))?;
///     println!(rt; "{}", refusal_text(alloc, 2, denied(alloc)?)?)?;
///     Ok(())
/// }
/// ```
pub use rt_wire::Reason;

/// The parts of a push, each with entries for the listen of its tag. A client takes them as one step, and
/// tells each listener of it once.
///
/// ```rust
/// fn push(alloc: Global, first: Entries, second: Entries) -> Result<ServerMessage, AllocError> {
///     let parts = vec![in alloc; Part::new(1, first), Part::new(2, second)]?;
///     let parts = Parts::of(parts);
///     Ok(ServerMessage::Push { parts })
/// }
///
/// fn show_part(rt: &impl Print, part: &Part) -> Result<()> {
///     let (tag, count) = (part.tag(), part.entries().as_slice().len());
///     println!(rt; "tag {tag}, entries: {count}")?;
///     Ok(())
/// }
///
/// fn show_parts(rt: &impl Print, parts: &Parts) -> Result<()> {
///     for part in parts.as_slice() {
///         show_part(rt, part)?;
///     }
///     Ok(())
/// }
///
/// fn last_entries(parts: Parts) -> Option<Entries> {
///     Some(parts.into_vec().pop()?.into_entries())
/// }
/// ```
pub use rt_wire::{Part, Parts};

/// A message of the client, whose text goes to the server.
///
/// ```rust
/// fn client_message(alloc: Global) -> Result<ClientMessage, WireError> {
///     ClientMessage::read(alloc, r#"{"id":1,"k":"put","path":"/a","value":5}"#)
/// }
///
/// fn asked_for(message: &ClientMessage) -> &'static str {
///     match message {
///         ClientMessage::Hello { .. } => "its version",
///         ClientMessage::Listen { .. } => "a listen",
///         ClientMessage::Unlisten { .. } => "the end of a listen",
///         ClientMessage::Ask { asked, .. } => kind_of(asked),
///     }
/// }
///
/// fn show_client_message(rt: &impl Print, alloc: Global, message: &ClientMessage) -> Result<()> {
///     println!(rt; "{}: {}", asked_for(message), message.text(alloc)?)?;
///     Ok(())
/// }
/// ```
pub use rt_wire::ClientMessage;

/// What a request asks for: a write, or something for the end of the connection.
///
/// ```rust
/// fn kind_of(asked: &Asked) -> &'static str {
///     match asked {
///         Asked::Now(_) => "a write",
///         Asked::AtDisconnect(_) => "something for the end of the connection",
///     }
/// }
/// ```
pub use rt_world::Asked;

/// A small server of one tree: it keeps the listens of its connections, takes their writes, and tells
/// each listen what changes.
///
/// ```rust
/// fn server(alloc: Global) -> Peer {
///     Peer::new(Tree::null(), Vec::new(alloc))
/// }
///
/// fn connect(peer: &mut Peer) -> Result<u64, PeerError> {
///     peer.connect()
/// }
///
/// fn answer(
///     peer: &mut Peer,
///     connection: u64,
///     message: ClientMessage,
/// ) -> Result<Vec<Sent>, PeerError> {
///     peer.message(connection, message)
/// }
///
/// fn is_listening(peer: &Peer, connection: u64) -> bool {
///     peer.next_listen(connection, None).is_some()
/// }
///
/// fn sizes(alloc: Global, peer: &Peer, query: &Query) -> Result<[usize; 3], AllocError> {
///     let no_entries = Vec::new(alloc);
///     let with_none = peer.text_len_with(no_entries.as_slice())?;
///     Ok([peer.text_len(), with_none, peer.seen_len(query)?])
/// }
///
/// fn end_turn(peer: &mut Peer, connection: u64) -> Result<(Vec<Sent>, bool), PeerError> {
///     peer.end_some(connection, 100)
/// }
///
/// fn show_end(rt: &impl Print, alloc: Global, peer: &mut Peer, connection: u64) -> Result<()> {
///     println!(rt; "sent at the end: {}", peer.disconnect(connection)?.len())?;
///     println!(rt; "the server has {}", peer.tree().text(alloc)?)?;
///     Ok(())
/// }
/// ```
pub use rt_peer::Peer;

/// How many listens a connection of a [`Peer`] has, and how many requests for its end.
///
/// ```rust
/// fn held(peer: &Peer, connection: u64) -> ConnectionLoad {
///     peer.held(connection)
/// }
/// ```
pub use rt_peer::ConnectionLoad;

/// What a server sends, and to which connection.
///
/// ```rust
/// fn first_to(sent: &[Sent], connection: u64) -> Option<&ServerMessage> {
///     let sent = sent.first()?;
///     if sent.to == connection {
///         Some(&sent.message)
///     } else {
///         None
///     }
/// }
/// ```
pub use rt_peer::Sent;
