// A thread that is the server.

use crate::stress::chance::Chance;
use crate::stress::choosing::Pushed;
use crate::stress::diary::Diary;
use crate::stress::talking::{End, Ended, step_in};
use rt_client::{Client, ClientError, Done, Shared};
use rt_wire::{ClientMessage, ServerMessage};
use rt_world::{Outcome, Step};
use std::alloc::AllocError;
use std::fmt::Write;
use std::sync::Wait;
use std::sync::atomic::{AtomicU64, Ordering};
use std::thread;

// A listen that the server was asked for: its tag, and its path, which is empty at the root.
#[derive(Drop)]
struct Listen {
    tag: u64,
    path: String,
}

// What the server was asked for, and not answered yet; and the line of its next step.
#[derive(Drop)]
pub(crate) struct Server {
    chance: Chance,
    pub(crate) diary: Diary,
    line: String,
    listens: Vec<Listen>,
    asked: Vec<u64>,
    is_connected: bool,
}

impl Server {
    pub(crate) fn new(chance: Chance, diary: Diary) -> Server {
        let alloc = diary.alloc;
        Server {
            chance,
            diary,
            line: String::new(alloc),
            listens: Vec::new(alloc),
            asked: Vec::new(alloc),
            is_connected: false,
        }
    }

    // Keeps a listen that it was asked for: whether it did.
    fn keep(&mut self, tag: u64, path: Result<String, AllocError>) -> bool {
        let Ok(mut path) = path else {
            return false;
        };
        if path.as_str() == "/" {
            path.clear();
        }
        self.listens.push(Listen { tag, path }).is_ok()
    }

    // Takes a message of the client.
    fn hears(&mut self, message: ClientMessage) {
        let is_kept = match message {
            ClientMessage::Hello { version: _ } => true,
            ClientMessage::Listen { tag, query } => {
                let path = query.path().text();
                drop(query);
                self.keep(tag, path)
            }
            ClientMessage::Unlisten { tag } => {
                self.listens.retain(|it| it.tag != tag);
                true
            }
            ClientMessage::Ask { id, asked } => {
                drop(asked);
                self.asked.push(id).is_ok()
            }
        };
        self.diary.need(is_kept);
    }

    // ---- the line of its next step: each says whether there is one

    // There is one, for which memory may have lacked.
    fn has(&mut self, written: Result<(), AllocError>) -> bool {
        self.diary.need(written.is_ok());
        true
    }

    // What is sent on one of the listens.
    fn push(&mut self) -> bool {
        let place = self.chance.below(self.listens.len() as u64) as usize;
        let pushed = Pushed::by(&mut self.chance);
        let Some(listen) = self.listens.get(place) else {
            return false;
        };
        let written = pushed.write(&mut self.line, listen.tag, listen.path.as_str());
        self.has(written)
    }

    // What is sent on two of the listens at once.
    fn push_parts(&mut self) -> bool {
        let place = self.chance.below(self.listens.len() as u64) as usize;
        let pushed = Pushed::by(&mut self.chance);
        let (first, second) = (
            self.listens.get(place),
            self.listens.get(place.wrapping_add(1)),
        );
        let (Some(first), Some(second)) = (first, second) else {
            return false;
        };
        let first = (first.tag, first.path.as_str());
        let second = (second.tag, second.path.as_str());
        let written = pushed.write_parts(&mut self.line, first, second);
        self.has(written)
    }

    // An answer to one of the requests.
    fn answer(&mut self) -> bool {
        let Some(id) = self.chance.number(self.asked.as_slice()) else {
            return false;
        };
        self.asked.retain(|it| *it != id);
        let written = if self.chance.once_in(3) {
            write!(self.line, "[\"no\",{id},\"denied\"]")
        } else {
            write!(self.line, "[\"ok\",{id}]")
        };
        self.has(written)
    }

    // The end of one of the listens.
    fn revoke(&mut self) -> bool {
        let place = self.chance.below(self.listens.len() as u64) as usize;
        let Some(listen) = self.listens.get(place) else {
            return false;
        };
        let written = write!(self.line, "[\"revoke\",{},\"gone\"]", listen.tag);
        self.has(written)
    }

    // A connection that begins or ends.
    fn turn(&mut self, word: &str) -> bool {
        let written = write!(self.line, "[\"{word}\"]");
        self.has(written)
    }

    // What it does by chance.
    fn choose(&mut self) -> bool {
        match self.chance.below(64) {
            0..=19 => self.push(),
            20..=23 => self.push_parts(),
            24..=44 => self.answer(),
            45 | 46 => self.revoke(),
            47 => self.turn("disconnected"),
            48..=52 => self.turn("connected"),
            _ => false,
        }
    }

    // What it still has to do once nobody talks: to be connected, and to answer.
    fn end(&mut self) -> bool {
        if self.is_connected {
            self.answer()
        } else {
            self.turn("connected")
        }
    }

    // ---- its steps

    // What was asked on a connection that has ended is asked anew on the next one.
    fn is_made(&mut self) {
        if self.line.as_str() == "[\"connected\"]" {
            self.is_connected = true;
        }
        if self.line.as_str() == "[\"disconnected\"]" {
            self.is_connected = false;
            self.listens.clear();
            self.asked.clear();
        }
    }

    // Writes down what the step of the line was answered.
    fn answered(&mut self, tickets: &AtomicU64, answer: Result<Outcome, ClientError>) {
        match answer {
            Ok(outcome) => {
                let done = Done {
                    outcome,
                    given: None,
                };
                self.diary.made(tickets, self.line.as_str(), done);
                self.is_made();
            }
            Err(ClientError::Core(why)) => self.diary.refused(tickets, self.line.as_str(), why),
            Err(
                ClientError::Failed
                | ClientError::WrongSeat
                | ClientError::MailboxFull
                | ClientError::TooManySeats
                | ClientError::NoMemory,
            ) => self.diary.need(false),
        }
    }

    // Makes the step that the line asks for, and writes it down under the lock.
    fn make<R: Wait>(&mut self, rt: &R, client: &Client, tickets: &AtomicU64) {
        let Some(step) = step_in(self.diary.alloc, self.line.as_str()) else {
            return self.diary.need(false);
        };
        let mut shared = client.shared.lock(rt);
        let answer = served(&mut shared, step);
        self.answered(tickets, answer);
        client.notify(shared);
    }

    // Takes the first message that is to be sent: whether there was one.
    fn take<R: Wait>(&mut self, rt: &R, client: &Client) -> bool {
        let taken = client.shared.lock(rt).take_outgoing();
        match taken {
            Ok(Some(message)) => {
                self.hears(message);
                true
            }
            Ok(None) => false,
            Err(_) => {
                self.diary.need(false);
                false
            }
        }
    }

    // Serves those who talk, with so many steps at most as long as they do, and then to the end.
    fn serve<R: Wait>(
        &mut self,
        rt: &R,
        client: &Client,
        tickets: &AtomicU64,
        talking: &AtomicU64,
        most: u64,
    ) {
        let mut steps = 0u64;
        for _ in rt.forever() {
            let is_over = talking.load(Ordering::SeqCst) == 0;
            if !is_over && steps >= most {
                // Whoever has something delivered asks its gate again.
                client.wake(rt);
                thread::yield_now();
                continue;
            }
            let has_taken = self.take(rt, client);
            self.line.clear();
            let has_line = if is_over { self.end() } else { self.choose() };
            if has_line {
                steps = steps.wrapping_add(1);
                self.make(rt, client, tickets);
            } else if is_over && !has_taken {
                return;
            } else {
                client.wake(rt);
            }
            if self.diary.is_lost {
                return;
            }
        }
        unreachable!()
    }
}

// Makes a step of the connection.
fn served(shared: &mut Shared, step: Step) -> Result<Outcome, ClientError> {
    let message = match step {
        Step::Connected => return shared.connected(),
        Step::Disconnected => return shared.disconnected(),
        Step::Data { tag, path, tree } => ServerMessage::Data { tag, path, tree },
        Step::DataMerge { tag, entries } => ServerMessage::DataMerge { tag, entries },
        Step::Push { parts } => ServerMessage::Push { parts },
        Step::Accepted { id } => ServerMessage::Accepted { id },
        Step::Refused { id, why } => ServerMessage::Refused { id, why },
        Step::Revoked { tag, why } => ServerMessage::Revoked { tag, why },
        other @ (Step::Listen { .. }
        | Step::Unlisten { .. }
        | Step::Write { .. }
        | Step::OnDisconnect { .. }
        | Step::CloseSeat { .. }) => {
            drop(other);
            return Err(ClientError::WrongSeat);
        }
    };
    shared.server_message(message)
}

// The server of a run, whose threads are told to stop in the end.
pub(crate) fn work<R: Wait>(
    rt: &R,
    client: &Client,
    server: Server,
    tickets: &AtomicU64,
    talking: &AtomicU64,
    most: u64,
) -> Ended {
    let mut server = server;
    server.serve(rt, client, tickets, talking, most);
    client.stop(rt);
    let Server { diary, .. } = server;
    Ended {
        place: 0,
        diary,
        end: End::Served,
    }
}
