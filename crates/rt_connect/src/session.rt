// A client behind a WebSocket, driven by lines.
ghost use Rattle.std.specs.Prelude.{◌≡◌, ◌+◌, ◌++◌, ◌<◌, ◌≤◌, ◌^◌, ℕ, List, map, Some, None, Ok, is_some};
ghost use Rattle.std.specs.Prelude.{if◌then◌else◌, IfOk, IfErr, IfSome, OnOk, OnErr};
ghost use Rattle.std.specs.Io.KnownBytes.{IsAtEnd};
ghost use Rattle.std.specs.Option.{option_map};
ghost use Rattle.rt_input.specs.declared.stream.TheConstants.{MAX_MESSAGE_BYTES};
ghost use Rattle.rt_client.specs.Delivery.{emptied};
ghost use Rattle.rt_lines.specs.inside.Appending.{Appends};
ghost use Rattle.rt_input.specs.Faults.{counts, NoneFailed, Tells, WriteTells};
ghost use Rattle.rt_input.specs.Lines.{lines_of, most_input};
ghost use Rattle.rt_lines.specs.Orders.{is_formed, is_good_order, order_of_bytes};
ghost use Rattle.rt_connect.specs.Ahead.{nothing_ahead};
ghost use Rattle.rt_connect.specs.Doing.{disconnected};
ghost use Rattle.rt_connect.specs.Driving.{DoesOrder, HasSent, PrintsHeard, PrintsLost, PrintsStep};
ghost use Rattle.rt_connect.specs.Driving.{PrintsTaken, PrintsTold, goes_on};
ghost use Rattle.rt_connect.specs.Ending.{Ends, end_text};
ghost use Rattle.rt_connect.specs.Run.{Drives, bad_among};
ghost use Rattle.rt_connect.specs.Sending.{linked};
ghost use Rattle.rt_world.specs.declared.step.Step.TheVariants as step;

use crate::link::{Lost, MAX_PINGS, ServerEvent, ServerFrame, ServerLink, opened, say_lost};
use crate::seats::{
    Seats, obey, open_seats, settle_all, take_messages, take_told, tell_connected,
    tell_disconnected, tell_lost,
};
use rt_client::{Client, Seat};
use rt_input::{ConsoleError, Drain, LineReader, Log, Silent, Source, write_printed};
use rt_lines::{CONNECT_LINES, LineError, Order, Refusal, say_line, write_bad_line, write_refusal};
use rt_socket::{Awaited, SILENCE_MS, TICK_MS};
use rt_world::{Call, CoreError};
use std::alloc::{AllocError, Global};
use std::io::{Read, Write};
use std::net::OpenStream;
use std::random::RandomSource;
use std::sync::Wait;
use std::time::Duration;

// A client with its seats, its connection, which is gone once it has failed or ended, how many pings and
// pongs may still come while the line is done, and what was printed and is not written yet.
struct Driven<'a, R, W> {
    rt: &'a R,
    alloc: Global,
    client: &'a Client,
    seats: Seats,
    link: Option<ServerLink<W>>,
    pings: u32,
    printed: String,
}

impl<'a, R, W: Drop> Drop for Driven<'a, R, W> {
    fn drop(self) {
        let Driven {
            rt: _,
            alloc: _,
            client: _,
            seats: _,
            link: _,
            pings: _,
            printed: _,
        } = self;
    }
}

impl<'a, R: Wait, W: Awaited + Drop> Driven<'a, R, W> {
    // Takes what came of a handshake: a wire, or why there is none.
    fn take_opened<L: Log>(
        &mut self,
        opened: Result<W, Lost>,
        log: &mut L,
    ) -> Result<(), AllocError>
        ensures stands { IfOk opened (λ wire. OnOk result (IfSome self.new.link (λ link.
            HasSent W.sends (linked wire nothing_ahead)
            (linked link.wire link.ahead)
            × (text : List ℕ) × Appends self.old.printed self.new.printed text
            × PrintsStep step.Connected text))) }
        ensures lost { IfOk opened (λ _. OnOk result (self.new.link ≡ None → (why text : List ℕ)
            × Appends self.old.printed self.new.printed (why ++ text)
            × PrintsStep step.Connected why × PrintsLost self.old.seats.items text)) }
        ensures none { IfErr opened (λ _. OnOk result (self.new.link ≡ None)) }
        ensures printed { IfErr opened (λ _.
            OnOk result (Appends self.old.printed self.new.printed disconnected)) }
    {
        match opened {
            Ok(wire) => self.begin(wire, log),
            Err(why) => self.fail_to_open(&why, log),
        }
    }

    // A connection is opened over the wire: the client is told of it, and sends what it has to.
    fn begin<L: Log>(&mut self, wire: W, log: &mut L) -> Result<(), AllocError>
        ensures stands { OnOk result (IfSome self.new.link (λ link.
            HasSent W.sends (linked wire nothing_ahead)
            (linked link.wire link.ahead)
            × (text : List ℕ) × Appends self.old.printed self.new.printed text
            × PrintsStep step.Connected text)) }
        ensures lost { OnOk result (self.new.link ≡ None → (why text : List ℕ)
            × Appends self.old.printed self.new.printed (why ++ text)
            × PrintsStep step.Connected why × PrintsLost self.old.seats.items text) }
    {
        self.link = Some(ServerLink::new(self.alloc, wire));
        self.tell_connected()?;
        self.send_waiting(log)
    }

    // No connection came about, which is printed.
    fn fail_to_open<L: Log>(&mut self, why: &Lost, log: &mut L) -> Result<(), AllocError>
        ensures none { OnOk result (self.new.link ≡ None) }
        ensures printed { OnOk result (Appends self.old.printed self.new.printed disconnected) }
        ensures seats { self.new.seats ≡ self.old.seats }
        ensures pings { self.new.pings ≡ self.old.pings }
    {
        self.link = None;
        say_lost(self.alloc, why, log)?;
        self.printed.push_str("disconnected\n")
    }

    // The client is told that it is connected.
    fn tell_connected(&mut self) -> Result<(), AllocError>
        ensures rest { self.new ≡ record (self.old) { printed = self.new.printed } }
        ensures printed { OnOk result ((text : List ℕ) × Appends self.old.printed self.new.printed text
            × PrintsStep step.Connected text) }
    {
        let mut shared = self.client.shared.lock(self.rt);
        tell_connected(&mut self.printed, &mut shared)
    }

    // The client is told that its connection has ended.
    fn tell_disconnected(&mut self) -> Result<(), AllocError>
        ensures rest { self.new ≡ record (self.old) { printed = self.new.printed } }
        ensures printed { OnOk result ((text : List ℕ) × Appends self.old.printed self.new.printed text
            × PrintsStep step.Disconnected text) }
    {
        let mut shared = self.client.shared.lock(self.rt);
        tell_disconnected(&mut self.printed, &mut shared)
    }

    // The client is told that its connection is gone, which is printed.
    fn tell_lost(&mut self) -> Result<(), AllocError>
        ensures rest { self.new ≡ record (self.old) { printed = self.new.printed } }
        ensures printed { OnOk result ((text : List ℕ)
            × Appends self.old.printed self.new.printed (disconnected ++ text)
            × PrintsStep step.Disconnected text) }
    {
        let mut shared = self.client.shared.lock(self.rt);
        tell_lost(&mut self.printed, &mut shared)
    }

    // The connection is gone.
    fn lose_link<L: Log>(&mut self, why: &Lost, log: &mut L) -> Result<(), AllocError>
        ensures none { self.new.link ≡ None }
        ensures pings { self.new.pings ≡ self.old.pings }
        ensures printed { OnOk result ((text : List ℕ) × Appends self.old.printed self.new.printed text
            × PrintsLost self.old.seats.items text) }
        ensures rings { OnOk result
            (self.new.seats.items ≡ map (option_map emptied) self.old.seats.items) }
    {
        drop(self.link.take());
        say_lost(self.alloc, why, log)?;
        self.tell_lost()?;
        self.settle()
    }

    // Settles the seats, and prints what they are told.
    fn settle(&mut self) -> Result<(), AllocError>
        ensures rest { self.new
            ≡ record (self.old) { printed = self.new.printed; seats = self.new.seats } }
        ensures printed { OnOk result ((text : List ℕ) × Appends self.old.printed self.new.printed text
            × PrintsTold self.old.seats.items text) }
        ensures rings { OnOk result
            (self.new.seats.items ≡ map (option_map emptied) self.old.seats.items) }
    {
        let mut shared = self.client.shared.lock(self.rt);
        settle_all(&mut self.printed, self.alloc, &mut shared, &mut self.seats)
    }

    // Sends what the client has to send, where the connection stands.
    fn send_waiting<L: Log>(&mut self, log: &mut L) -> Result<(), AllocError>
        ensures none { self.old.link ≡ None
            → (result ≡ Ok tt) × (self.new ≡ self.old) × (log.new ≡ log.old) }
        ensures sent { IfSome self.old.link (λ old. OnOk result (IfSome self.new.link (λ new.
            HasSent W.sends (linked old.wire old.ahead)
            (linked new.wire new.ahead) × (self.new.printed ≡ self.old.printed)))) }
        ensures lost { IfSome self.old.link (λ old. OnOk result (self.new.link ≡ None → (text : List ℕ)
            × Appends self.old.printed self.new.printed text
            × PrintsLost self.old.seats.items text)) }
    {
        let Some(link) = &mut self.link else {
            return Ok(());
        };
        let messages = take_messages(self.alloc, &mut self.client.shared.lock(self.rt))?;
        let sent = link.send_all(messages.as_slice(), &mut self.pings);
        drop(messages);
        match sent? {
            None => Ok(()),
            Some(why) => self.lose_link(&why, log),
        }
    }

    // Takes a message of the server.
    fn take(&mut self, told: ServerFrame) -> Result<(), AllocError>
        ensures rest { self.new ≡ record (self.old) { printed = self.new.printed } }
        ensures printed { OnOk result ((text : List ℕ) × Appends self.old.printed self.new.printed text
            × PrintsTaken told text) }
    {
        let mut shared = self.client.shared.lock(self.rt);
        take_told(&mut self.printed, self.alloc, &mut shared, told)
    }

    // Takes what was heard of the server, and answers whether the connection stands then.
    fn take_heard<L: Log>(&mut self, heard: ServerEvent, log: &mut L) -> Result<bool, AllocError>
        ensures goes_on { IfOk result (λ stands. stands ≡ goes_on heard) }
        ensures link { OnOk result (self.new.link
            ≡ (if goes_on heard then self.old.link else None)) }
        ensures pings { self.new.pings ≡ self.old.pings }
        ensures printed { OnOk result ((text : List ℕ) × Appends self.old.printed self.new.printed text
            × PrintsHeard heard self.old.seats.items text) }
    {
        match heard {
            ServerEvent::Told(told) => {
                self.take(told)?;
                self.settle()?;
                Ok(true)
            }
            ServerEvent::Ended(why) => {
                let lost = self.lose_link(&why, log);
                drop(why);
                lost?;
                Ok(false)
            }
        }
    }

    // Reads a message, where the connection stands, and answers whether it stands then.
    fn read_message<L: Log>(&mut self, log: &mut L) -> Result<bool, AllocError>
        ensures { IfOk result (λ stands. stands ≡ is_some self.new.link) }
    {
        let Some(link) = &mut self.link else {
            return Ok(false);
        };
        let heard = link.next(&mut self.pings)?;
        self.take_heard(heard, log)
    }

    // Reads so many messages, and writes what each prints.
    fn read_messages<D: Drain, L: Log>(
        &mut self,
        times: u64,
        writer: &mut D,
        log: &mut L,
    ) -> Result<(), ConsoleError>
        requires { D.failures writer.old + 1 < 2 ^ 64 }
        ensures ok { OnOk result (D.failures writer.new ≡ D.failures writer.old) }
        ensures fault { IfErr result (λ e.
            WriteTells e (D.failures writer.old) (D.failures writer.new)) }
    {
        if self.link.is_none() {
            write_refusal(&mut self.printed, Refusal::Core(CoreError::NotConnected))?;
            return Ok(());
        }
        for _ in 0..times {
            if !self.read_message(log)? {
                return Ok(());
            }
            self.write_out(writer)?;
        }
        Ok(())
    }

    // Does what an order asks of the client and its seats.
    fn obey(&mut self, order: Order) -> Result<(), AllocError>
        ensures rest { self.new
            ≡ record (self.old) { printed = self.new.printed; seats = self.new.seats } }
        ensures done { OnOk result ((text : List ℕ) × Appends self.old.printed self.new.printed text
            × DoesOrder order self.old.seats.items text self.new.seats.items) }
    {
        let mut shared = self.client.shared.lock(self.rt);
        obey(
            &mut self.printed,
            self.alloc,
            &mut shared,
            &mut self.seats,
            order,
        )
    }

    // Does what a line asks for, and answers whether it is good.
    fn do_order<D: Drain, L: Log>(
        &mut self,
        number: u64,
        bytes: &[u8],
        writer: &mut D,
        log: &mut L,
    ) -> Result<bool, ConsoleError>
        requires { D.failures writer.old + 1 < 2 ^ 64 }
        ensures ok { OnOk result (D.failures writer.new ≡ D.failures writer.old) }
        ensures fault { IfErr result (λ e.
            WriteTells e (D.failures writer.old) (D.failures writer.new)) }
        ensures good { IfOk result (λ good. good ≡ is_formed (order_of_bytes bytes.now)) }
    {
        match Order::read(self.alloc, bytes) {
            Ok(Order::Read { times }) => self.read_messages(times, writer, log)?,
            Ok(order @ (Order::Seat { .. } | Order::Close { .. } | Order::Cover)) => {
                self.obey(order)?;
            }
            Err(LineError::Refused(refusal)) => write_refusal(&mut self.printed, refusal)?,
            Err(LineError::Bad) => {
                write_bad_line(&mut self.printed, number)?;
                say_line(self.alloc, &CONNECT_LINES, number, bytes, false, log)?;
                return Ok(false);
            }
            Err(LineError::NoMemory) => return Err(ConsoleError::NoMemory),
        }
        say_line(self.alloc, &CONNECT_LINES, number, bytes, true, log)?;
        Ok(true)
    }

    // Does the line of that number, and answers whether it is good.
    fn do_line<D: Drain, L: Log>(
        &mut self,
        number: u64,
        bytes: &[u8],
        writer: &mut D,
        log: &mut L,
    ) -> Result<bool, ConsoleError>
        requires { D.failures writer.old + 1 < 2 ^ 64 }
        ensures ok { OnOk result (D.failures writer.new ≡ D.failures writer.old) }
        ensures fault { IfErr result (λ e.
            WriteTells e (D.failures writer.old) (D.failures writer.new)) }
        ensures good { IfOk result (λ good. good ≡ is_good_order bytes.now) }
    {
        if bytes.is_empty() {
            return Ok(true);
        }
        self.pings = MAX_PINGS;
        let is_good = self.do_order(number, bytes, writer, log)?;
        self.settle()?;
        self.send_waiting(log)?;
        self.write_out(writer)?;
        Ok(is_good)
    }

    // Writes what was printed.
    fn write_out<D: Drain>(&mut self, writer: &mut D) -> Result<(), ConsoleError>
        requires { D.failures writer.old + 1 < 2 ^ 64 }
        ensures ok { OnOk result (D.failures writer.new ≡ D.failures writer.old) }
        ensures error { IfErr result (λ e. e ≡ ConsoleError.WriteFault) }
        ensures fault { OnErr result (D.failures writer.new ≡ D.failures writer.old + 1) }
    {
        write_printed(&mut self.printed, writer)
    }

    // Does all lines of the input, and answers how many of them were bad.
    fn run<I: Source, D: Drain, L: Log>(
        &mut self,
        reader: &mut I,
        writer: &mut D,
        log: &mut L,
    ) -> Result<u64, ConsoleError>
        requires bytes { I.given reader.old ≤ 2 ^ 63 }
        requires reads { I.failures reader.old + 1 < 2 ^ 64 }
        requires writes { D.failures writer.old + 1 < 2 ^ 64 }
        ensures end { OnOk result (IsAtEnd (I.remaining reader.new)) }
        ensures counted { IfOk result (λ bad_lines. (text : List ℕ) → I.remaining reader.old ≡ Some text
            → bad_lines ≡ bad_among (lines_of text)) }
        ensures within { OnOk result (I.given reader.new ≤ I.given reader.old + most_input) }
        ensures ok { OnOk result (NoneFailed
            (counts (I.given reader.old) (I.failures reader.old) (D.failures writer.old))
            (counts (I.given reader.new) (I.failures reader.new) (D.failures writer.new))) }
        ensures fault { IfErr result (λ e. Tells e
            (counts (I.given reader.old) (I.failures reader.old) (D.failures writer.old))
            (counts (I.given reader.new) (I.failures reader.new) (D.failures writer.new))) }
    {
        let mut lines = LineReader::new(self.alloc)?;
        let mut number = 0u64;
        let mut bad_lines = 0u64;
        self.write_out(writer)?;
        'lines: while lines.next(reader)? {
            number = number.saturating_add(1);
            if !self.do_line(number, lines.line(), writer, log)? {
                bad_lines = bad_lines.saturating_add(1);
            }
        }
        Ok(bad_lines)
    }

    // The connection is closed, and the client is told of it. A server that doesn't close it too is said to
    // be gone.
    fn end<L: Log>(&mut self, log: &mut L) -> Result<(), AllocError>
        ensures none { self.new.link ≡ None }
        ensures same { self.old.link ≡ None → (result ≡ Ok tt) × (log.new ≡ log.old) }
        ensures printed { OnOk result (IfSome self.old.link (λ _. (why : Lost)
            × ((had left : W) × Ends W.leaves W.ends MAX_MESSAGE_BYTES had why left)
            × (text : List ℕ) × Appends self.old.printed self.new.printed (text ++ end_text why)
            × PrintsStep step.Disconnected text)) }
    {
        let Some(link) = self.link.take() else {
            return Ok(());
        };
        let ended = link.close();
        self.tell_disconnected()?;
        let why = ended?;
        let told = say_lost(self.alloc, &why, log);
        let printed = write_end(&mut self.printed, &why);
        drop(why);
        told?;
        printed
    }
}

// Prints how a connection ended that the client ended, where that is printed.
fn write_end(out: &mut String, why: &Lost) -> Result<(), AllocError>
    ensures { OnOk result (Appends out.old out.new (end_text why.now)) }
{
    if why.is_unclosed() {
        out.push_str("disconnected\n")
    } else {
        Ok(())
    }
}

// Drives a client over what a handshake gave, by the lines that a reader gives.
fn drive_over<R: Wait, W: Awaited + Drop, I: Source, D: Drain, L: Log>(
    rt: &R,
    alloc: Global,
    client: &Client,
    seats: Vec<Seat>,
    opened: Result<W, Lost>,
    reader: &mut I,
    writer: &mut D,
    log: &mut L,
) -> Result<u64, ConsoleError>
    requires bytes { I.given reader.old ≤ 2 ^ 63 }
    requires reads { I.failures reader.old + 1 < 2 ^ 64 }
    requires writes { D.failures writer.old + 1 < 2 ^ 64 }
    ensures end { OnOk result (IsAtEnd (I.remaining reader.new)) }
    ensures counted { IfOk result (λ bad_lines. (text : List ℕ) → I.remaining reader.old ≡ Some text
        → bad_lines ≡ bad_among (lines_of text)) }
    ensures within { OnOk result (I.given reader.new ≤ I.given reader.old + most_input) }
    ensures ok { OnOk result (NoneFailed
        (counts (I.given reader.old) (I.failures reader.old) (D.failures writer.old))
        (counts (I.given reader.new) (I.failures reader.new) (D.failures writer.new))) }
    ensures fault { IfErr result (λ e. Tells e
        (counts (I.given reader.old) (I.failures reader.old) (D.failures writer.old))
        (counts (I.given reader.new) (I.failures reader.new) (D.failures writer.new))) }
{
    let mut driven = Driven {
        rt,
        alloc,
        client,
        seats: open_seats(alloc, seats)?,
        link: None,
        pings: MAX_PINGS,
        printed: String::new(alloc),
    };
    driven.take_opened(opened, log)?;
    let outcome = driven.run(reader, writer, log);
    let ended = driven.end(log);
    let bad_lines = outcome?;
    ended?;
    driven.write_out(writer)?;
    Ok(bad_lines)
}

// From here on a read of the stream is given up after a tick, and a write after as long as a server may be
// silent, where the system knows of such limits.
fn wait_by_ticks<S: OpenStream>(stream: &S) {
    let _reads = stream.set_read_timeout(Some(Duration::from_millis(TICK_MS)));
    let _writes = stream.set_write_timeout(Some(Duration::from_millis(SILENCE_MS)));
}

/// As [`drive`], over a stream of the system to that port, which the handshake names as its host. A read
/// is given up after `TICK_MS` of `rt_socket` and a write after its `SILENCE_MS`: so a server that says
/// nothing is given up. Tells the log why no connection came about or how it ended, and what is wrong with
/// each bad line.
///
/// # Errors
///
/// As [`drive`].
pub fn drive_logged<
    R: Wait,
    N: RandomSource + Drop,
    S: Read + Write + OpenStream + Drop,
    I: Source,
    D: Drain,
    L: Log,
>(
    rt: &R,
    alloc: Global,
    client: &Client,
    seats: Vec<Seat>,
    random: N,
    port: u16,
    stream: S,
    reader: &mut I,
    writer: &mut D,
    log: &mut L,
) -> Result<u64, ConsoleError>
    requires bytes { I.given reader.old ≤ 2 ^ 63 }
    requires reads { I.failures reader.old + 1 < 2 ^ 64 }
    requires writes { D.failures writer.old + 1 < 2 ^ 64 }
    ensures { Drives result
        (counts (I.given reader.old) (I.failures reader.old) (D.failures writer.old))
        (counts (I.given reader.new) (I.failures reader.new) (D.failures writer.new))
        (I.remaining reader.old) (I.remaining reader.new) }
{
    wait_by_ticks(&stream);
    let address = format!(in alloc; "ws://127.0.0.1:{port}/")?;
    let opened = opened(alloc, random, &address, stream)?;
    drive_over(rt, alloc, client, seats, opened, reader, writer, log)
}

/// Opens a WebSocket as the client over a stream, tells the client that it is connected, and does the
/// lines that a reader gives: the calls of its seats, by their numbers from 1, the end of a seat, the
/// listens that are kept, and `["read",n]`, which reads n messages of the server. Writes what lines and
/// messages print, and what the seats are then told, seat by seat; after each line sends what the client
/// has to send. Answers the number of bad lines.
///
/// Where no handshake comes about, for another cause than memory, and where the socket fails or ends,
/// `disconnected` is printed, and the lines go on; the client is told of the end of a socket that stood. A
/// socket has failed too where more than `MAX_MESSAGE_BYTES` of `rt_input` are needed for one message, and
/// with the last of [`MAX_PINGS`] pings and pongs that come while one line is done.
///
/// A read of the stream that would have to wait says that nothing came for `TICK_MS` of `rt_socket`. A
/// handshake for which that happened `HANDSHAKE_TICKS` times does not come about, and a server of which
/// nothing came for `SILENCE_MS` is given up; halfway it is asked for a sign of life.
///
/// Where more than [`MAX_UNANSWERED_BYTES`] would be on their way while the server owes an answer, what it
/// sends is read first, so that neither side waits for the other to read: it is kept until a line reads it.
/// A socket has failed too where that takes more than [`MAX_KEPT_BYTES`].
///
/// At the end the client says that it goes, and reads on until the server goes too, so that it reads all
/// that it was sent. What comes then is passed over, and how the socket ends then is not printed, unless
/// nothing comes for `TICK_MS`: then `disconnected` is.
///
/// The lock is taken for each call and let go before anything is read or sent.
///
/// # Errors
///
/// A `ReadFault` is a failure of the reader, or more than 67,108,864 bytes of input, and a `WriteFault` a
/// failure of the writer; a failure of the stream is none. `NoMemory`.
pub fn drive<R: Wait, N: RandomSource + Drop, S: Read + Write + Drop, I: Source, D: Drain>(
    rt: &R,
    alloc: Global,
    client: &Client,
    seats: Vec<Seat>,
    random: N,
    stream: S,
    reader: &mut I,
    writer: &mut D,
) -> Result<u64, ConsoleError>
    requires bytes { I.given reader.old ≤ 2 ^ 63 }
    requires reads { I.failures reader.old + 1 < 2 ^ 64 }
    requires writes { D.failures writer.old + 1 < 2 ^ 64 }
    ensures { Drives result
        (counts (I.given reader.old) (I.failures reader.old) (D.failures writer.old))
        (counts (I.given reader.new) (I.failures reader.new) (D.failures writer.new))
        (I.remaining reader.old) (I.remaining reader.new) }
{
    let opened = opened(alloc, random, "ws://127.0.0.1/", stream)?;
    drive_over(
        rt,
        alloc,
        client,
        seats,
        opened,
        reader,
        writer,
        &mut Silent,
    )
}
