//! Whether the system has threads for a run.
use crate::complaint::say_few_threads;
use crate::live::count_live;
use play_types::Config;
use std::alloc::{AllocError, Global};
use std::io::Eprint;
use std::rt::Files;
use std::sync::Arc;
use std::sync::atomic::{AtomicBool, AtomicUsize, Ordering};
use std::thread::{self, Builder, Threads};

/// How often a thread of a trial looks whether the trial is over before it ends anyway.
const LOOKS: u32 = 1_000_000;

/// Finds out whether the system has enough threads besides that of the caller: one for each connection of a
/// configuration, one for each live output, and two more, since beside the connections ticks are made, frames are made
/// and written, and the log is kept. Threads are started for a trial, and have ended when this returns.
///
/// It fails if memory ran out, or, with the same error, if some threads could not be started; then standard error says
/// how many were.
pub fn try_threads<R: Threads + Files + Eprint>(
    rt: &R,
    alloc: Global,
    config: &Config,
) -> Result<(), AllocError> {
    let live = count_live(rt, config);
    let wanted = config.connections().saturating_add(live).saturating_add(2);
    let started = start_threads(rt, alloc, wanted)?;
    if started < wanted as usize {
        say_few_threads(rt, started, wanted);
        return Err(AllocError);
    }
    Ok(())
}

/// What the threads of a trial share.
#[derive(Drop)]
struct Trial {
    /// How many threads have begun.
    begun: AtomicUsize,
    is_over: AtomicBool,
}

/// Starts `count` threads that run at once, and ends them. Returns how many have begun.
pub fn start_threads<R: Threads>(rt: &R, alloc: Global, count: u32) -> Result<usize, AllocError> {
    let trial = Arc::new(
        alloc,
        Trial {
            begun: AtomicUsize::new(0),
            is_over: AtomicBool::new(false),
        },
    )?;
    let mut handles = Vec::with_capacity(alloc, count as usize)?;
    for _ in 0..count {
        let theirs = Arc::try_clone(&trial)?;
        let Ok(handle) = Builder::new().spawn(rt, move || theirs.wait()) else {
            break;
        };
        let Ok(()) = handles.push(handle) else {
            break;
        };
    }
    trial.is_over.store(true, Ordering::SeqCst);
    for handle in handles {
        handle.join(rt);
    }
    Ok(trial.begun.load(Ordering::SeqCst))
}

impl Trial {
    /// Counts a thread, and waits until the trial is over.
    fn wait(&self) {
        self.begun.fetch_add(1, Ordering::SeqCst);
        for _ in 0..LOOKS {
            if self.is_over.load(Ordering::SeqCst) {
                return;
            }
            thread::yield_now();
        }
    }
}
