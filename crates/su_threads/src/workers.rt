// Sessions handed to workers, which each have a thread and a service of their own.
ghost use Rattle.std.specs.Prelude.{◌≡◌, ◌⊎◌, ℕ, List, length, vec_len, IfOk, IfErr, OnOk, IfSome, All};
ghost use Rattle.std.specs.Iterator.{IsFinite, Drains};
ghost use Rattle.std.specs.Thread.{IsSync, IsSend};
ghost use Rattle.su_bytes.specs.declared.refusals.Refusal.TheVariants.{BadNumber, LinkFailed, NoMemory};
ghost use Rattle.su_threads.specs.Runs.{RanSo, IsWorkerCount};

use crate::links::Link;
use crate::places::place;
use crate::reports::Report;
use crossbeam_channel::{Receiver, Sender, bounded, unbounded};
use std::alloc::{AllocError, Global};
use std::sync::Wait;
use std::thread;
use std::thread::Threads;
use su_bytes::Refusal;
use su_session::{Attend, Served, Service};

/// How many workers there are at most.
pub const MOST_WORKERS: usize = 16;

/// A session to be served.
#[derive(Drop)]
struct Job<L: Drop> {
    number: u64,
    link: L,
}

/// Serves the sessions that are handed out, one after another, until no more are. One service
/// serves them all, and is told of each when it begins, and when it has ended.
fn work<R: Wait, L: Link + Drop, S: Service + Attend + Drop>(
    rt: &R,
    alloc: Global,
    jobs: Receiver<Job<L>>,
    reports: Sender<Report<L, S>>,
    home: Sender<S>,
    mut service: S,
) {
    for _ in rt.forever() {
        let Ok(job) = jobs.recv(rt) else {
            break;
        };
        let Job { number, link } = job;
        service.begin(number);
        let report = Report::of(alloc, number, link, &mut service);
        service.end();
        // A report that can't be handed back is missed later.
        let _lost = reports.send(rt, report);
    }
    // A service that can't be handed back is missed later.
    let _lost = home.send(rt, service);
}

/// Hands the sessions out, numbered from 1, and tells how many came.
fn hand_out<R: Wait, I: Iterator<Item = L> + Drop, L: Drop>(
    rt: &R,
    sessions: I,
    jobs: Sender<Job<L>>,
) -> Option<u64>
    requires can { I.can_next sessions }
    requires ends { IsFinite (I.remaining sessions) }
    ensures { IfSome result (λ count.
        (came : List L) × Drains I.next_gives sessions came × (length came ≡ count)) }
{
    let mut count = 0u64;
    for link in sessions {
        count = count.checked_add(1)?;
        // A session that can't be handed out has no report.
        let _lost = jobs.send(
            rt,
            Job {
                number: count,
                link,
            },
        );
    }
    Some(count)
}

/// An end of each channel for one worker more.
fn ends<J: Drop, T: Drop, S: Drop>(
    jobs: &Receiver<J>,
    reports: &Sender<T>,
    home: &Sender<S>,
) -> Result<(Receiver<J>, Sender<T>, Sender<S>), AllocError> {
    Ok((jobs.clone()?, reports.clone()?, home.clone()?))
}

/// Serves all sessions, each by one of the services, which each have a thread of their own. There
/// is one `Served` for each session that came, in their order; all services come back, in any
/// order. `BadNumber` where the services aren't 1 to 16; `LinkFailed` where a thread could not be
/// started, and then no session is served, and where the report of a session came twice or not at
/// all, or a service didn't come back; `NoMemory`.
pub fn serve_all<R, I, L, S>(
    rt: &R,
    alloc: Global,
    sessions: I,
    services: Vec<S>,
) -> Result<(Vec<Served>, Vec<S>), Refusal>
where
    R: Threads + Wait + Sync,
    I: Iterator<Item = L> + Drop,
    L: Link + Send + Drop,
    S: Service + Attend + Send + Drop,
    requires can { I.can_next sessions }
    requires ends { IsFinite (I.remaining sessions) }
    ensures count { IfOk result (λ r.
        (came : List L) × Drains I.next_gives sessions came × (length came ≡ vec_len r.0)) }
    ensures ran { IfOk result (λ r.
        All (λ served. ∥ RanSo (L.runs S.answers) served ∥₁) r.0.items) }
    ensures back { IfOk result (λ r. vec_len r.1 ≡ vec_len services) }
    ensures range { OnOk result (IsWorkerCount (vec_len services)) }
    ensures refused { IfErr result (λ e. ((e ≡ BadNumber) × ¬ IsWorkerCount (vec_len services))
        ⊎ (e ≡ LinkFailed) ⊎ (e ≡ NoMemory)) }
{
    let workers = services.len();
    if workers < 1 || MOST_WORKERS < workers {
        return Err(Refusal::BadNumber);
    }
    let (hand, jobs) = bounded(alloc, MOST_WORKERS)?;
    let (tell, reports) = unbounded(alloc)?;
    let (home, back) = unbounded(alloc)?;
    let count = thread::scope(
        thread::scope_env(),
        rt,
        move |scope| -> Option<u64>
            requires { IsSync R.row × IsSend S.row × IsSend L.row
                × (I.can_next sessions) × IsFinite (I.remaining sessions) }
            ensures { IfSome result (λ count.
                (came : List L) × Drains I.next_gives sessions came × (length came ≡ count)) }
        {
            for service in services {
                let Ok((jobs, tell, home)) = ends(&jobs, &tell, &home) else {
                    return None;
                };
                if scope
                    .spawn(move || work(rt, alloc, jobs, tell, home, service))
                    .is_err()
                {
                    return None;
                }
            }
            hand_out(rt, sessions, hand)
        },
    );
    let Some(count) = count else {
        return Err(Refusal::LinkFailed);
    };
    let all = collect(rt, alloc, reports)?;
    let services = collect(rt, alloc, back)?;
    if services.len() != workers {
        return Err(Refusal::LinkFailed);
    }
    Ok((place(alloc, all, count)?, services))
}

/// What came over a channel, once nobody sends any more.
fn collect<R: Wait, T: Drop>(rt: &R, alloc: Global, from: Receiver<T>) -> Result<Vec<T>, Refusal>
    ensures { IfErr result (λ e. e ≡ NoMemory) }
{
    let mut all = Vec::new(alloc);
    for _ in rt.forever() {
        let Ok(report) = from.recv(rt) else {
            break;
        };
        all.push(report).map_err(|_| Refusal::NoMemory)?;
    }
    Ok(all)
}
