// How long a link waits for the other side, and between connections.
ghost use Rattle.std.specs.Prelude.{◌≡◌};
ghost use Rattle.rt_socket.specs.Waiting.{for_silence, up_to, wait_after};
ghost use Rattle.rt_socket.specs.declared.patience.TheConstants.{CLOSING_MS, HANDSHAKE_MS};

/// How many milliseconds a handshake may take.
pub const HANDSHAKE_MS: u64 = 10_000;

/// After how many milliseconds in which nothing came the server is asked whether it is there.
pub const PING_MS: u64 = 30_000;

/// After how many milliseconds in which nothing came the connection is given up.
pub const SILENCE_MS: u64 = 60_000;

/// How many milliseconds a server has to go once the client has said that it goes.
pub const CLOSING_MS: u64 = 1_000;

/// After how many milliseconds a read is given up in which nothing came, where a stream is waited for.
pub const TICK_MS: u64 = CLOSING_MS;

/// How many of these a handshake may take.
pub const HANDSHAKE_TICKS: u64 = HANDSHAKE_MS / TICK_MS;

// Behind which of these the server is asked whether it is there, counted from none.
pub(crate) const ASKING_TICK: u64 = PING_MS / TICK_MS - 1;

// Behind how many of these it is given up.
pub(crate) const SILENT_TICKS: u64 = SILENCE_MS / TICK_MS;

/// How many milliseconds are waited behind a connection that has lasted, and behind the first one.
pub const FIRST_WAIT_MS: u64 = 1_000;

/// How many are waited at most.
pub const MOST_WAIT_MS: u64 = 30_000;

/// A connection has lasted that stood for so many milliseconds.
pub const LASTING_MS: u64 = 30_000;

/// What is to be done about a server that was silent for some time.
#[derive(Clone, Copy, Debug, PartialEq, Eq)]
pub enum Patience {
    /// It is waited for so many milliseconds.
    Wait(u64),
    /// It is asked whether it is there.
    Ping,
    /// The connection is given up.
    GiveUp,
}

/// Up to a limit, in milliseconds, it is waited for what is left of it.
pub fn up_to(limit: u64, silent: u64) -> Patience
    ensures { result ≡ up_to limit silent }
{
    if silent < limit {
        Patience::Wait(limit - silent)
    } else {
        Patience::GiveUp
    }
}

/// What is to be done about a server that was silent for so many milliseconds since the handshake began.
pub fn for_handshake(silent: u64) -> Patience
    ensures { result ≡ up_to HANDSHAKE_MS silent }
{
    up_to(HANDSHAKE_MS, silent)
}

/// What is to be done about a server that was silent for so many milliseconds, where the connection stands.
pub fn for_silence(silent: u64, is_asked: bool) -> Patience
    ensures { result ≡ for_silence silent is_asked }
{
    if silent >= SILENCE_MS {
        Patience::GiveUp
    } else if is_asked {
        Patience::Wait(SILENCE_MS - silent)
    } else if silent >= PING_MS {
        Patience::Ping
    } else {
        Patience::Wait(PING_MS - silent)
    }
}

/// What is to be done about a server that has not gone so many milliseconds after the client said that it
/// goes.
pub fn for_end(waited: u64) -> Patience
    ensures { result ≡ up_to CLOSING_MS waited }
{
    up_to(CLOSING_MS, waited)
}

/// How many milliseconds are waited behind a connection that stood for so many, none where it did not come
/// about, before the next one is begun; so many were waited before it. It is twice that, from a second up
/// to 30, and a second again behind one that stood for 30.
pub fn wait_after(waited: u64, stood: u64) -> u64
    ensures { result ≡ wait_after waited stood }
{
    if stood >= LASTING_MS || waited < FIRST_WAIT_MS {
        FIRST_WAIT_MS
    } else if waited < MOST_WAIT_MS / 2 {
        waited * 2
    } else {
        MOST_WAIT_MS
    }
}
