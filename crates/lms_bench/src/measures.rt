// What is measured, in seconds of the thread's processor time.
use crate::counts::{ID, generate_blocks, sign_blocks, steps_signed, verify_blocks};
use sha2::{Digest, Sha256};
use std::alloc::{AllocError, AllocFailed};
use std::thread::Threads;
use std::time::{Clock, CpuClock, Instant};
use std::{io, thread};
use su_bytes::Refusal;
use su_lms::{Check, NoStore, Params, PublicKey, Signer, verify_all};

/// Why a measurement stopped.
#[derive(Debug, Drop)]
pub enum Fault {
    /// The clock or the output failed.
    System(io::Error),
    /// A key or a signature could not be made, by the number of the refusal.
    Refused(u8),
    /// A signature did not verify.
    NotSigned,
}

impl From<io::Error> for Fault {
    fn from(error: io::Error) -> Fault {
        Fault::System(error)
    }
}

impl From<Refusal> for Fault {
    fn from(refusal: Refusal) -> Fault {
        Fault::Refused(refusal.number())
    }
}

impl<T: Drop> From<AllocFailed<T>> for Fault {
    fn from(_refused: AllocFailed<T>) -> Fault {
        Fault::from(Refusal::NoMemory)
    }
}

impl From<AllocError> for Fault {
    fn from(_refused: AllocError) -> Fault {
        Fault::from(Refusal::NoMemory)
    }
}

/// A parameter pair.
#[derive(Drop)]
pub struct Pair {
    pub name: &'static str,
    pub lms: u32,
    pub ots: u32,
    pub leaves: u32,
}

impl Pair {
    /// The pair of these types, 5 or 6 and 3 or 4.
    pub fn new(name: &'static str, lms: u32, ots: u32) -> Pair {
        let leaves = if lms == 5 { 32 } else { 1024 };
        Pair {
            name,
            lms,
            ots,
            leaves,
        }
    }
}

const SEED: [u8; 32] = [9; 32];

/// The blocks of an input of 4,096 bytes, and how often a run hashes it.
const LONG_BLOCKS: f64 = 65.0;

const LONG_HASHES: u32 = 1_000;

fn now(rt: &impl CpuClock) -> io::Result<f64> {
    Ok(rt.thread_cpu_time()?.as_secs_f64())
}

/// How many blocks the hash function takes in a second at most, in the best of twenty runs.
fn blocks_per_second(rt: &impl CpuClock) -> io::Result<f64> {
    let mut best = 0.0f64;
    for _ in 0..20 {
        let rate = rate_of_a_run(rt)?;
        best = if rate > best { rate } else { best };
    }
    Ok(best)
}

/// How many blocks of a long input, which costs next to nothing beside its blocks, the hash
/// function takes in a second.
fn rate_of_a_run(rt: &impl CpuClock) -> io::Result<f64> {
    let mut input = [0u8; 4096];
    let from = now(rt)?;
    for _ in 0..LONG_HASHES {
        let hash = Sha256::digest(&input);
        input = [hash[0]; 4096];
    }
    Ok(f64::from(LONG_HASHES) * LONG_BLOCKS / (now(rt)? - from))
}

// The seconds of all calls, and the blocks in them.
#[derive(Clone, Copy)]
struct Total {
    seconds: f64,
    blocks: f64,
}

/// A message, and the signature of it by one leaf.
#[derive(Drop)]
struct Signed {
    message: [u8; 4],
    signature: Vec<u8>,
}

/// Measures one pair and prints it: calls a second, blocks a call, and the share of what the hash
/// function allows, by the better of its rates before and after.
pub fn measure<R>(rt: &R, pair: &Pair) -> Result<(), Fault>
where
    R: CpuClock + Clock + Threads + Sync + Print + AllocGlobal,
{
    let leaves = f64::from(pair.leaves);
    let before = blocks_per_second(rt)?;
    let (mut signer, generated) = generate(rt, pair)?;
    let key = signer.public();
    let (all, signed) = sign(rt, pair, &mut signer)?;
    let verified = verify(rt, pair, &key, &all)?;
    let together = Total {
        seconds: verify_together(rt, &key, &all)?,
        blocks: verified.blocks,
    };
    let after = blocks_per_second(rt)?;
    let allowed = if after > before { after } else { before };
    show(rt, pair.name, "generate", generated, 1.0, allowed)?;
    show(rt, pair.name, "sign", signed, leaves, allowed)?;
    show(rt, pair.name, "verify", verified, leaves, allowed)?;
    show(rt, pair.name, "verify_all", together, leaves, allowed)?;
    show_threads(rt, pair)
}

/// Makes the pair's key on one core.
fn generate<R: CpuClock + AllocGlobal>(
    rt: &R,
    pair: &Pair,
) -> Result<(Signer<NoStore>, Total), Fault> {
    let params = Params::new(pair.lms, pair.ots)?;
    let from = now(rt)?;
    let signer = Signer::generate(rt.alloc(), params, ID, SEED, NoStore)?;
    let total = Total {
        seconds: now(rt)? - from,
        blocks: generate_blocks(pair.ots, f64::from(pair.leaves)),
    };
    Ok((signer, total))
}

/// Signs with each leaf.
fn sign<R: CpuClock + AllocGlobal>(
    rt: &R,
    pair: &Pair,
    signer: &mut Signer<NoStore>,
) -> Result<(Vec<Signed>, Total), Fault> {
    let mut all = Vec::new(rt.alloc());
    let mut total = Total {
        seconds: 0.0,
        blocks: 0.0,
    };
    for q in 0..pair.leaves {
        let message = q.to_be_bytes();
        let from = now(rt)?;
        let signature = signer.sign(&message)?;
        total.seconds += now(rt)? - from;
        let steps = steps_signed(pair.ots, &message, &signature);
        total.blocks += sign_blocks(pair.ots, steps);
        all.push(Signed { message, signature })?;
    }
    Ok((all, total))
}

/// Verifies each signature by a call of its own.
fn verify(
    rt: &impl CpuClock,
    pair: &Pair,
    key: &PublicKey,
    all: &Vec<Signed>,
) -> Result<Total, Fault> {
    let height = if pair.lms == 5 { 5.0 } else { 10.0 };
    let mut total = Total {
        seconds: 0.0,
        blocks: 0.0,
    };
    for one in all {
        let from = now(rt)?;
        let is_signed = key.verify(&one.message, &one.signature);
        total.seconds += now(rt)? - from;
        if !is_signed {
            return Err(Fault::NotSigned);
        }
        let steps = steps_signed(pair.ots, &one.message, &one.signature);
        total.blocks += verify_blocks(pair.ots, steps, height);
    }
    Ok(total)
}

/// The seconds in which all signatures are verified by one call.
fn verify_together<R: CpuClock + AllocGlobal>(
    rt: &R,
    key: &PublicKey,
    all: &Vec<Signed>,
) -> Result<f64, Fault> {
    let checks = all.iter().map(|one| Check {
        key,
        message: &one.message,
        signature: one.signature.as_slice(),
        is_signed: false,
    });
    let mut checks: Vec<Check<'_>> = checks.collect(rt.alloc())?;
    let from = now(rt)?;
    verify_all(checks.as_mut_slice());
    let seconds = now(rt)? - from;
    if checks.iter().any(|check| !check.is_signed) {
        return Err(Fault::NotSigned);
    }
    Ok(seconds)
}

/// Makes the pair's key on one core and then on all, by the clock on the wall, and prints how many
/// times as fast that is.
fn show_threads<R>(rt: &R, pair: &Pair) -> Result<(), Fault>
where
    R: Clock + Threads + Sync + Print + AllocGlobal,
{
    let params = Params::new(pair.lms, pair.ots)?;
    let from = Instant::now(rt)?;
    let on_one = Signer::generate(rt.alloc(), params, ID, SEED, NoStore)?;
    let one = from.elapsed(rt)?.as_secs_f64();
    let from = Instant::now(rt)?;
    let on_all = Signer::generate_in_threads(rt, rt.alloc(), params, ID, SEED, NoStore)?;
    let all = from.elapsed(rt)?.as_secs_f64();
    if on_one.public() != on_all.public() {
        return Err(Fault::NotSigned);
    }
    let threads = match thread::available_parallelism(rt) {
        Ok(threads) => threads.get(),
        Err(_) => 1,
    };
    let (name, per_second, factor) = (pair.name, 1.0 / all, one / all);
    println!(rt;
        "{name:>7} generate_in_threads {per_second:>9.1} a second by the wall clock, {factor:.2} \
         times one core on {threads}"
    )?;
    Ok(())
}

fn show(
    rt: &impl Print,
    name: &str,
    what: &str,
    total: Total,
    calls: f64,
    allowed: f64,
) -> Result<(), Fault> {
    let per_second = calls / total.seconds;
    let blocks = total.blocks / calls;
    let share = 100.0 * total.blocks / total.seconds / allowed;
    println!(rt;
        "{name:>7} {what:<10} {per_second:>9.1} a second, {blocks:>9.1} blocks each, {share:>5.1} %"
    )?;
    Ok(())
}
