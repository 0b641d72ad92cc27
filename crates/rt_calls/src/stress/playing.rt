// A run: six threads that talk over one client, and the server.

use crate::stress::chance::Chance;
use crate::stress::diary::Diary;
use crate::stress::serving::{self, Server};
use crate::stress::talking::{self, End, Ended, Worker};
use anyhow::{Result, anyhow};
use rt_client::{Client, Seat, crossing_law};
use rt_world::Limits;
use std::alloc::{AllocError, Global};
use std::fmt::Write;
use std::io::Print;
use std::sync::Wait;
use std::sync::atomic::AtomicU64;
use std::thread;
use std::thread::Threads;

// The rings of the six seats.
const ROOMS: [usize; 6] = [1, 2, 3, 8, 64, 1024];

// So many steps of the server stand for one call of each thread.
const SERVED: u64 = 4;

// What a thread of a run does: one serves, and one talks on each seat, whose place is the seat's number.
#[derive(Drop)]
enum Job {
    Serve,
    Talk { place: u64, seat: Seat },
}

// The jobs of a run.
fn jobs(alloc: Global, seats: Vec<Seat>) -> Result<Vec<Job>, AllocError> {
    let mut jobs = Vec::new(alloc);
    jobs.push(Job::Serve)?;
    for seat in seats {
        let place = jobs.len() as u64;
        jobs.push(Job::Talk { place, seat })?;
    }
    Ok(jobs)
}

// What a run is made of: its seed, and how often each thread that talks calls.
#[derive(Drop, Clone, Copy)]
struct Run {
    alloc: Global,
    seed: u64,
    calls: u64,
}

impl Run {
    fn worker(self, place: u64, seat: Seat) -> Worker {
        Worker {
            place,
            room: ROOMS
                .get(place.wrapping_sub(1) as usize)
                .copied()
                .unwrap_or(1),
            seat,
            chance: Chance::new(self.seed, place),
            diary: Diary::new(self.alloc),
            line: String::new(self.alloc),
        }
    }

    fn server(self) -> Server {
        Server::new(Chance::new(self.seed, 0), Diary::new(self.alloc))
    }
}

// Does the job, to its end.
fn work<R: Wait>(
    rt: &R,
    run: Run,
    client: &Client,
    job: Job,
    tickets: &AtomicU64,
    talking: &AtomicU64,
) -> Ended {
    match job {
        Job::Serve => {
            let most = run.calls.wrapping_mul(SERVED);
            serving::work(rt, client, run.server(), tickets, talking, most)
        }
        Job::Talk { place, seat } => {
            let worker = run.worker(place, seat);
            talking::work(rt, client, worker, tickets, talking, run.calls)
        }
    }
}

fn word_of(end: End, is_lost: bool) -> &'static str {
    if is_lost {
        return "lost";
    }
    match end {
        End::Open => "open",
        End::Emptied => "emptied",
        End::Left => "left",
        End::Served => "served",
    }
}

// What a thread wrote down, behind the seed, its place and how it ended; nothing where memory lacks for it.
fn report(run: Run, ended: &Ended) -> Option<String> {
    let Ended { place, diary, end } = ended;
    let (seed, word) = (run.seed, word_of(*end, diary.is_lost));
    let mut text = String::new(run.alloc);
    let begun = write!(
        text,
        "== {seed} {place} {word}\n-- steps\n{}-- heard\n{}-- views\n",
        diary.steps, diary.heard
    );
    if begun.is_ok() && diary.write_views(&mut text) {
        Some(text)
    } else {
        None
    }
}

// Does all jobs at once, each in a thread: what each wrote down.
fn play_all<R: Threads + Wait + Sync>(
    rt: &R,
    run: Run,
    client: &Client,
    jobs: Vec<Job>,
) -> Result<Vec<Option<String>>, AllocError> {
    // For the prover: what may go to another thread.
    crossing_law();
    let (tickets, talking) = (AtomicU64::new(0), AtomicU64::new(ROOMS.len() as u64));
    thread::map_vec(
        rt,
        jobs,
        &|job| report(run, &work(rt, run, client, job, &tickets, &talking)),
    )
}

fn print_all<R: Print>(rt: &R, reports: &[Option<String>]) -> Result<()> {
    for report in reports {
        match report {
            Some(text) => println!(rt; "{text}")?,
            None => return Err(anyhow!("no memory for what a thread wrote down")),
        }
    }
    Ok(())
}

// A run of a seed, each of whose threads calls so often: each prints what it wrote down.
pub(crate) fn play<R: Threads + Wait + Print + Sync>(
    rt: &R,
    alloc: Global,
    seed: u64,
    calls: u64,
) -> Result<()> {
    let run = Run { alloc, seed, calls };
    let (client, seats) = Client::open(alloc, 1, &ROOMS, Limits::full())?;
    let reports = match jobs(alloc, seats) {
        Ok(jobs) => play_all(rt, run, &client, jobs),
        Err(error) => Err(error),
    };
    drop(client);
    print_all(rt, reports?.as_slice())
}
