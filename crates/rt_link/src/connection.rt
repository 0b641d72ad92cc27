// A connection of a client, from its handshake to its end.
ghost use Rattle.std.specs.Prelude.{◌≡◌, [], IfOk, IfErr, OnOk};
ghost use Rattle.rt_link.specs.Carrying.{Closes, Fails, GoesOn, PassesOver, Shakes, Turns};
ghost use Rattle.rt_link.specs.Turning.{is_awaited, is_sent, AwaitsEnd, Parts, SeesOff};
ghost use Rattle.rt_link.specs.inside.Rounds.{RefusesEnd};
ghost use Rattle.rt_link.specs.declared.connection.LinkTurn.TheVariants.{Ended};
ghost use Rattle.rt_link.specs.Carrying.{begun, is_open, left_standing, standing_of, Closing, Gone, Open, Shaking};

use crate::error::LinkFault;
use crate::turn::{BATCH, Passed, SentOff, answer_turn, hear_turn, paced};
use rt_client::Client;
use rt_socket::{
    Batch, Flushed, Lost, Paced, Patience, Pause, Socket, Wire, for_end, for_handshake,
    for_silence, hear_all, limits, unopened,
};
use std::alloc::{AllocError, Global};
use std::io::{Read, Write};
use std::marker::Model;
use std::random::RandomSource;
use std::sync::Wait;
use std::time::{Clock, Duration, Instant};
use tungstenite::handshake::MidHandshake;
use tungstenite::handshake::client::{ClientHandshake, request_of, start};
use tungstenite::{HandshakeError, RandomKeys};

/// The most bytes of a message of the server.
const MAX_MESSAGE_BYTES: usize = 134_217_728;

// How many bytes are read in one turn.
const TURN_BYTES: usize = 262_144;

// What the stream of a handshake is read from.
type Shaking<S, N> = MidHandshake<ClientHandshake<Paced<S>, RandomKeys<N>>>;

// A connection's socket.
type ClientSocket<S, N> = Socket<Paced<S>, RandomKeys<N>>;

// Where a connection stands.
enum LinkStage<S: Read + Write + Drop, N: RandomSource + Drop> {
    Shaking(Shaking<S, N>),
    Open(ClientSocket<S, N>),
    // The client has said that it goes.
    Closing(ClientSocket<S, N>),
    Gone,
}

impl<S: Read + Write + Drop, N: RandomSource + Drop> Drop for LinkStage<S, N> {
    fn drop(self) {
        match self {
            LinkStage::Shaking(_) | LinkStage::Open(_) | LinkStage::Closing(_) | LinkStage::Gone =>
                {}
        }
    }
}

// Goes on with a handshake: what is behind it, or why it fails, if there is memory to say it.
fn shake_on<S: Read + Write + Drop, N: RandomSource + Drop>(
    alloc: Global,
    mut mid: Shaking<S, N>,
) -> Result<LinkStage<S, N>, Result<Lost, AllocError>> {
    mid.get_mut().allow(TURN_BYTES);
    match mid.handshake() {
        Ok((socket, response)) => {
            drop(response);
            Ok(LinkStage::Open(Socket::new(alloc, socket)))
        }
        Err(HandshakeError::Interrupted(mid)) => Ok(LinkStage::Shaking(mid)),
        Err(HandshakeError::Failure(why)) => Err(unopened(why)),
    }
}

impl<S: Read + Write + Drop, N: RandomSource + Drop> LinkStage<S, N> {
    // Goes on with the handshake, if that is where it is.
    fn shaken(self, alloc: Global) -> Result<LinkStage<S, N>, Result<Lost, AllocError>> {
        match self {
            LinkStage::Shaking(mid) => shake_on(alloc, mid),
            LinkStage::Open(socket) => Ok(LinkStage::Open(socket)),
            LinkStage::Closing(socket) => Ok(LinkStage::Closing(socket)),
            LinkStage::Gone => Ok(LinkStage::Gone),
        }
    }

    // The client has said that it goes.
    fn into_closing(self) -> LinkStage<S, N>
        ensures { standing_of self ≡ Open → standing_of result ≡ Closing }
    {
        match self {
            LinkStage::Open(socket) | LinkStage::Closing(socket) => LinkStage::Closing(socket),
            LinkStage::Shaking(mid) => LinkStage::Shaking(mid),
            LinkStage::Gone => LinkStage::Gone,
        }
    }
}

/// What a turn of a connection leaves to be done.
#[derive(Debug, Drop)]
pub enum LinkTurn {
    /// Nothing, until something comes, or so long.
    Idle(Duration),
    /// There may be more at once.
    More,
    /// The connection did not come about.
    NotOpened(Lost),
    /// The connection has ended, and the client was told of it.
    Ended(Lost),
}

/// A connection of a client, over a stream that does not wait. It begins with its handshake; a client that
/// it has told of a connection is told of its end by [`Connection::close`], if no turn did so before.
pub struct Connection<S: Read + Write + Drop, N: RandomSource + Drop> {
    alloc: Global,
    stage: LinkStage<S, N>,
    // When something came last, and whether the server was asked since whether it is there.
    heard: Instant,
    is_asked: bool,
    passed: Vec<Passed>,
}

impl<S: Read + Write + Drop, N: RandomSource + Drop> Drop for Connection<S, N> {
    fn drop(self) {
        let Connection {
            alloc: _,
            stage: _,
            heard: _,
            is_asked: _,
            passed: _,
        } = self;
    }
}

impl<S: Read + Write + Drop, N: RandomSource + Drop> Model for Connection<S, N> {
    ghost use Rattle.rt_link.specs.Carrying.{Carried, standing_of};

    ghost Value = { Carried };

    ghost view = { λ c. record { standing = standing_of c.stage; passed = c.passed.items } };
}

// How many milliseconds have gone by.
pub(crate) fn millis_since<R: Clock>(rt: &R, then: Instant) -> Result<u64, LinkFault> {
    let millis = then.elapsed(rt)?.as_millis();
    Ok(u64::try_from(millis).unwrap_or(u64::MAX))
}

// Begins a handshake, of which nothing is sent yet.
fn shake_hands<S: Read + Write + Drop, N: RandomSource + Drop>(
    alloc: Global,
    random: N,
    stream: S,
    uri: &str,
) -> Result<Result<Shaking<S, N>, Lost>, LinkFault> {
    let mut nonce = [0u8; 16];
    random.fill_bytes(&mut nonce)?;
    let request = match request_of(alloc, uri) {
        Ok(request) => request,
        Err(why) => return Ok(Err(unopened(why)?)),
    };
    let keys = RandomKeys::new(random);
    match start(
        alloc,
        nonce,
        keys,
        request,
        Paced::new(stream),
        Some(limits(MAX_MESSAGE_BYTES)),
    ) {
        Ok(mid) => Ok(Ok(mid)),
        Err(why) => Ok(Err(unopened(why)?)),
    }
}

// Whether what a wire has taken is on its way, or will be.
fn is_sent(flushed: Flushed) -> bool
    ensures { result ≡ is_sent flushed }
{
    match &flushed {
        Flushed::Done | Flushed::Blocked => true,
        Flushed::Failed(_) => false,
    }
}

// The handshake has failed.
fn not_opened(why: Result<Lost, AllocError>) -> Result<LinkTurn, LinkFault>
    ensures { IfOk result (λ turn. Shakes turn Gone) }
{
    match why {
        Ok(why) => Ok(LinkTurn::NotOpened(why)),
        Err(_) => Err(LinkFault::NoMemory),
    }
}

// Whether a connection that is left is still waited for.
fn is_awaited(heard: &Result<LinkTurn, LinkFault>) -> bool
    ensures { result ≡ is_awaited heard.now }
{
    match heard {
        Ok(LinkTurn::Idle(_) | LinkTurn::More) => true,
        Ok(LinkTurn::NotOpened(_) | LinkTurn::Ended(_)) | Err(_) => false,
    }
}

// How long a server that is left is waited for, or that it is waited for no longer.
fn still_there(patience: Patience, is_more: bool) -> LinkTurn
    ensures { AwaitsEnd patience is_more result }
{
    match patience {
        Patience::Ping | Patience::GiveUp => LinkTurn::Ended(Lost::Silent),
        Patience::Wait(millis) => {
            if is_more {
                LinkTurn::More
            } else {
                LinkTurn::Idle(Duration::from_millis(millis))
            }
        }
    }
}

// The same, by what became of what this side has still to send.
fn flushed_off(flushed: Flushed, patience: Patience, is_more: bool) -> LinkTurn
    ensures { SeesOff flushed patience is_more result }
{
    match flushed {
        Flushed::Done | Flushed::Blocked => still_there(patience, is_more),
        Flushed::Failed(why) => LinkTurn::Ended(why),
    }
}

impl<S: Read + Write + Drop, N: RandomSource + Drop> Connection<S, N> {
    /// A connection over a stream that does not wait, and may not be connected yet. The URI is what the
    /// handshake names, as `ws://127.0.0.1/`.
    ///
    /// # Errors
    ///
    /// `System` where there is no clock or no random number, and `NoMemory`. A URI that is none is a
    /// handshake that fails.
    pub fn new<R: Clock>(
        rt: &R,
        alloc: Global,
        random: N,
        stream: S,
        uri: &str,
    ) -> Result<Result<Connection<S, N>, Lost>, LinkFault>
        ensures begun { IfOk result (λ made. IfOk made (λ connection. connection ≡ begun)) }
    {
        let heard = Instant::now(rt)?;
        let mid = match shake_hands(alloc, random, stream, uri)? {
            Ok(mid) => mid,
            Err(why) => return Ok(Err(why)),
        };
        Ok(Ok(Connection {
            alloc,
            stage: LinkStage::Shaking(mid),
            heard,
            is_asked: false,
            passed: Vec::new(alloc),
        }))
    }

    /// Whether the handshake is done, and the connection stands.
    pub fn is_open(&self) -> bool
        ensures { result ≡ is_open self.now.standing }
    {
        match &self.stage {
            LinkStage::Open(_) => true,
            LinkStage::Shaking(_) | LinkStage::Closing(_) | LinkStage::Gone => false,
        }
    }

    /// Hands over why messages of the server were passed over, in order, since it was asked last.
    pub fn take_passed(&mut self) -> Vec<Passed>
        ensures passed { result.items ≡ self.old.passed }
        ensures left { self.new ≡ record (self.old) { passed = [] } }
    {
        std::mem::replace(&mut self.passed, Vec::new(self.alloc))
    }

    /// Does what can be done now, and does not wait: goes on with the handshake, or reads what the server
    /// sent and sends what the client has to send. Tells the client when the connection stands, and when
    /// it ends.
    ///
    /// # Errors
    ///
    /// `Client` where the client has failed, or somebody else has told it of a connection, and `NoMemory`:
    /// the connection is to be closed then. `System` where there is no clock. A connection that is gone
    /// answers `NotOpened`, with no reason but that it is closed.
    pub fn turn<R: Wait + Clock>(&mut self, rt: &R, client: &Client) -> Result<LinkTurn, LinkFault>
        ensures stands { IfOk result (λ turn. Turns self.old.standing turn self.new.standing) }
        ensures passed { OnOk result (PassesOver self.old self.new.passed) }
        ensures failed { IfErr result (λ e. Fails self.old.standing self.new.standing) }
    {
        match &self.stage {
            LinkStage::Shaking(_) => self.shake(rt, client),
            LinkStage::Open(_) => self.carry(rt, client),
            LinkStage::Closing(_) => self.see_off(rt),
            LinkStage::Gone => Ok(LinkTurn::NotOpened(Lost::Closed)),
        }
    }

    // Goes on with the handshake.
    fn shake<R: Wait + Clock>(&mut self, rt: &R, client: &Client) -> Result<LinkTurn, LinkFault>
        ensures failed { IfErr result (λ e. Fails Shaking self.new.standing) }
        ensures stands { IfOk result (λ turn. Shakes turn self.new.standing) }
        ensures passed { self.new.passed ≡ self.old.passed }
    {
        let stage = std::mem::replace(&mut self.stage, LinkStage::Gone);
        match stage.shaken(self.alloc) {
            Ok(stage) => self.shaken(rt, client, stage),
            Err(why) => not_opened(why),
        }
    }

    // The handshake is done, or is waited for.
    fn shaken<R: Wait + Clock>(
        &mut self,
        rt: &R,
        client: &Client,
        stage: LinkStage<S, N>,
    ) -> Result<LinkTurn, LinkFault>
        ensures failed { IfErr result (λ e. Fails Shaking self.new.standing) }
        ensures stands { IfOk result (λ turn. Shakes turn self.new.standing) }
        ensures passed { self.new.passed ≡ self.old.passed }
    {
        self.stage = stage;
        match &self.stage {
            LinkStage::Open(_) => self.open(rt, client),
            LinkStage::Shaking(_) => self.await_hands(rt),
            LinkStage::Closing(_) | LinkStage::Gone => {
                self.stage = LinkStage::Gone;
                Ok(LinkTurn::NotOpened(Lost::Closed))
            }
        }
    }

    // The handshake is done: the client is told of the connection.
    fn open<R: Wait + Clock>(&mut self, rt: &R, client: &Client) -> Result<LinkTurn, LinkFault>
        ensures failed { self.old.standing ≡ Open
            → IfErr result (λ e. Fails Shaking self.new.standing) }
        ensures stands { self.old.standing ≡ Open
            → IfOk result (λ turn. Shakes turn self.new.standing) }
        ensures passed { self.new.passed ≡ self.old.passed }
    {
        if let Err(why) = client.connected(rt) {
            self.stage = LinkStage::Gone;
            return Err(LinkFault::Client(why));
        }
        self.heard = Instant::now(rt)?;
        Ok(LinkTurn::More)
    }

    // The handshake goes on once more has come, or is given up.
    fn await_hands<R: Clock>(&mut self, rt: &R) -> Result<LinkTurn, LinkFault>
        ensures gone { IfErr result (λ e. self.new.standing ≡ Gone) }
        ensures stands { self.old.standing ≡ Shaking
            → IfOk result (λ turn. Shakes turn self.new.standing) }
        ensures passed { self.new.passed ≡ self.old.passed }
    {
        match millis_since(rt, self.heard) {
            Ok(silent) => Ok(self.wait_for(for_handshake(silent))),
            Err(why) => {
                self.stage = LinkStage::Gone;
                Err(why)
            }
        }
    }

    // The handshake is waited for, where there is patience.
    fn wait_for(&mut self, patience: Patience) -> LinkTurn
        ensures stands { self.old.standing ≡ Shaking → Shakes result self.new.standing }
        ensures passed { self.new.passed ≡ self.old.passed }
    {
        match patience {
            Patience::Wait(millis) => LinkTurn::Idle(Duration::from_millis(millis)),
            Patience::Ping | Patience::GiveUp => {
                self.stage = LinkStage::Gone;
                LinkTurn::NotOpened(Lost::Late)
            }
        }
    }

    // Reads and sends, and then ends the connection or says how long is to be waited.
    fn carry<R: Wait + Clock>(&mut self, rt: &R, client: &Client) -> Result<LinkTurn, LinkFault>
        ensures stands { self.old.standing ≡ Open
            → IfOk result (λ turn. GoesOn Open turn self.new.standing) }
        ensures passed { OnOk result (PassesOver self.old self.new.passed) }
        ensures failed { self.old.standing ≡ Open
            → IfErr result (λ e. Fails Open self.new.standing) }
    {
        match self.exchange(rt, client)? {
            SentOff::Done => self.be_patient(rt, client),
            SentOff::More => Ok(LinkTurn::More),
            SentOff::Lost(why) => self.end(rt, client, why),
        }
    }

    // Reads, and sends what the client has to send.
    fn exchange<R: Wait + Clock>(&mut self, rt: &R, client: &Client) -> Result<SentOff, LinkFault>
        ensures stands { self.new.standing ≡ self.old.standing }
        ensures passed { OnOk result (PassesOver self.old self.new.passed) }
    {
        let now = Instant::now(rt)?;
        let LinkStage::Open(socket) = &mut self.stage else {
            return Ok(SentOff::Lost(Lost::Closed));
        };
        socket.allow(TURN_BYTES);
        let pause = hear_turn(rt, self.alloc, client, socket, &mut self.passed)?;
        let left = socket.left();
        if left < TURN_BYTES {
            self.heard = now;
            self.is_asked = false;
        }
        answer_turn(rt, self.alloc, client, socket, paced(pause, left))
    }

    // Says how long is to be waited for the server, or asks whether it is there, or gives it up.
    fn be_patient<R: Wait + Clock>(
        &mut self,
        rt: &R,
        client: &Client,
    ) -> Result<LinkTurn, LinkFault>
        ensures stands { self.old.standing ≡ Open
            → IfOk result (λ turn. GoesOn Open turn self.new.standing) }
        ensures passed { self.new.passed ≡ self.old.passed }
        ensures failed { self.old.standing ≡ Open
            → IfErr result (λ e. Fails Open self.new.standing) }
    {
        match for_silence(millis_since(rt, self.heard)?, self.is_asked) {
            Patience::Wait(millis) => Ok(LinkTurn::Idle(Duration::from_millis(millis))),
            Patience::Ping => self.ask(rt, client),
            Patience::GiveUp => self.end(rt, client, Lost::Silent),
        }
    }

    // Asks the server whether it is there.
    fn ask<R: Wait>(&mut self, rt: &R, client: &Client) -> Result<LinkTurn, LinkFault>
        ensures stands { self.old.standing ≡ Open
            → IfOk result (λ turn. GoesOn Open turn self.new.standing) }
        ensures passed { self.new.passed ≡ self.old.passed }
        ensures failed { self.old.standing ≡ Open
            → IfErr result (λ e. Fails Open self.new.standing) }
    {
        let LinkStage::Open(socket) = &mut self.stage else {
            return Ok(LinkTurn::NotOpened(Lost::Closed));
        };
        self.is_asked = true;
        match socket.ping()? {
            Some(why) => self.end(rt, client, why),
            None => Ok(LinkTurn::More),
        }
    }

    // The connection is gone, and the client is told of it.
    #[tactic(auto, using(crate::proofs::Rounds::not_told))]
    fn end<R: Wait>(&mut self, rt: &R, client: &Client, why: Lost) -> Result<LinkTurn, LinkFault>
        ensures gone { self.new ≡ record (self.old) { standing = Gone } }
        ensures ended { IfOk result (λ turn. turn ≡ Ended why) }
        ensures refused { IfErr result RefusesEnd }
    {
        self.stage = LinkStage::Gone;
        match client.disconnected(rt) {
            Ok(_) => Ok(LinkTurn::Ended(why)),
            Err(fault) => {
                drop(why);
                Err(LinkFault::Client(fault))
            }
        }
    }

    // Passes over what the server still sends, until it goes too.
    #[tactic(auto, using(crate::proofs::Leaving::awaited, crate::proofs::Leaving::awaited_no_more))]
    fn see_off<R: Clock>(&mut self, rt: &R) -> Result<LinkTurn, LinkFault>
        ensures gone { IfErr result (λ e. self.new.standing ≡ Gone) }
        ensures stands { self.old.standing ≡ Closing
            → IfOk result (λ turn. GoesOn Closing turn self.new.standing) }
        ensures passed { self.new.passed ≡ self.old.passed }
    {
        let heard = self.hear_off(rt);
        if !is_awaited(&heard) {
            self.stage = LinkStage::Gone;
        }
        heard
    }

    // Reads what the server still sends, and drops it. Says how long it is waited for, or why it is not.
    #[tactic(auto, using(crate::proofs::Leaving::sees_off_parts))]
    fn hear_off<R: Clock>(&mut self, rt: &R) -> Result<LinkTurn, LinkFault>
        ensures kept { self.new ≡ self.old }
        ensures parts { IfOk result Parts }
    {
        let patience = for_end(millis_since(rt, self.heard)?);
        let LinkStage::Closing(socket) = &mut self.stage else {
            return Ok(LinkTurn::Ended(Lost::Closed));
        };
        socket.allow(TURN_BYTES);
        let Batch { messages, pause } = hear_all(self.alloc, socket, BATCH)?;
        drop(messages);
        match paced(pause, socket.left()) {
            Pause::Idle => Ok(flushed_off(socket.flush(), patience, false)),
            Pause::More => Ok(flushed_off(socket.flush(), patience, true)),
            Pause::Ended(why) => Ok(LinkTurn::Ended(why)),
        }
    }

    /// Where the connection stands, tells the server and the client that it ends. Turns then pass over
    /// what the server still sends, until it has gone too, or for a second: a server that was left while
    /// it sent would lose what it had not read.
    ///
    /// # Errors
    ///
    /// `Client` where the client has failed.
    pub fn close<R: Wait + Clock>(&mut self, rt: &R, client: &Client) -> Result<(), LinkFault>
        ensures closes { Closes self.old.standing self.new.standing }
        ensures passed { self.new.passed ≡ self.old.passed }
    {
        match &self.stage {
            LinkStage::Open(_) => self.leave(rt, client),
            LinkStage::Shaking(_) => {
                self.stage = LinkStage::Gone;
                Ok(())
            }
            LinkStage::Closing(_) | LinkStage::Gone => Ok(()),
        }
    }

    // Tells the server and the client that a connection ends that stood.
    #[tactic(auto, using(crate::proofs::Leaving::left_so))]
    fn leave<R: Wait + Clock>(&mut self, rt: &R, client: &Client) -> Result<(), LinkFault>
        ensures closes { self.old.standing ≡ Open → Closes Open self.new.standing }
        ensures passed { self.new.passed ≡ self.old.passed }
    {
        let is_said = self.say_end();
        self.leave_stage(is_said);
        client.disconnected(rt)?;
        self.heard = Instant::now(rt)?;
        Ok(())
    }

    // Tells the server that a connection ends that stood: whether that is on its way, or will be.
    fn say_end(&mut self) -> bool
        ensures { self.new ≡ self.old }
    {
        match &mut self.stage {
            LinkStage::Open(socket) => is_sent(socket.close(None)),
            LinkStage::Shaking(_) | LinkStage::Closing(_) | LinkStage::Gone => false,
        }
    }

    // The connection that stood is left, or gone where the server can't be told.
    fn leave_stage(&mut self, is_said: bool)
        ensures left { self.old.standing ≡ Open → self.new.standing ≡ left_standing is_said }
        ensures passed { self.new.passed ≡ self.old.passed }
    {
        let stage = std::mem::replace(&mut self.stage, LinkStage::Gone);
        if is_said {
            self.stage = stage.into_closing();
        } else {
            drop(stage);
        }
    }
}
