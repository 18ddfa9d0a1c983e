//! Digests that are computed by several threads.
ghost use Rattle.std.specs.Prelude.{◌≡◌, ◌<◌, ◌≤◌, length};
ghost use Rattle.std.specs.Thread.{IsSync};

use crate::kept_frame::KeptFrame;
use std::thread::{Threads, join_mut};

/// The fewest bytes whose digests are computed by more than one thread. Starting a thread takes about as long as digesting
/// these.
const MIN_SHARED_BYTES: usize = 65_536;

/// Computes the digests of all frames that have none, on at most `threads` threads in parallel.
#[cycle(parts)]
pub(crate) fn digest_all<R: Threads + Sync>(rt: &R, frames: &mut [KeptFrame], threads: usize)
    ensures { frames.new ≡ frames.old }
{
    if threads < 2 || waiting_frames(frames) < 2 || undigested(frames) < MIN_SHARED_BYTES {
        digest_each(frames);
        return;
    }
    let first_threads = threads / 2;
    let (first, last) = frames.split_at_mut(share_of(frames, first_threads, threads));
    digest_both(rt, first_threads, first, threads - first_threads, last);
}

/// Computes the digests of two lists of frames in parallel.
#[cycle(parts)]
fn digest_both<R: Threads + Sync>(
    rt: &R,
    first_threads: usize,
    first: &mut [KeptFrame],
    last_threads: usize,
    last: &mut [KeptFrame],
)
    requires some { (0 < first_threads) × (0 < last_threads) }
    ensures first { first.new ≡ first.old }
    ensures last { last.new ≡ last.old }
{
    join_mut(
        rt,
        &mut ||
            requires { IsSync R.row }
            ensures { first.exit.now ≡ first.entry.now }
        { digest_all(rt, first, first_threads) },
        &mut ||
            requires { IsSync R.row }
            ensures { last.exit.now ≡ last.entry.now }
        { digest_all(rt, last, last_threads) },
    );
}

/// Computes the digests of all frames that have none, one after another.
fn digest_each(frames: &mut [KeptFrame])
    ensures { frames.new ≡ frames.old }
{
    for at in 0..frames.len() {
        let _digits = frames[at].digits();
    }
}

/// Returns how many frames wait for their digest.
fn waiting_frames(frames: &[KeptFrame]) -> usize {
    let mut count: usize = 0;
    for frame in frames {
        if frame.undigested() > 0 {
            count = count.saturating_add(1);
        }
    }
    count
}

/// Returns how many of the frames, from the first on, are for the first `first` of `threads` threads, so that each thread has
/// about as many bytes to digest.
fn share_of(frames: &[KeptFrame], first: usize, threads: usize) -> usize
    requires { 0 < threads }
    ensures { result ≤ length frames.now }
{
    let share = undigested(frames).saturating_mul(first) / threads;
    let mut before: usize = 0;
    let mut count = 0;
    while count < frames.len() {
        let bytes = frames[count].undigested();
        if before.saturating_add(bytes / 2) >= share {
            return count;
        }
        before = before.saturating_add(bytes);
        count += 1;
    }
    count
}

/// Returns how many bytes of the frames wait for their digest.
fn undigested(frames: &[KeptFrame]) -> usize {
    let mut bytes: usize = 0;
    for frame in frames {
        bytes = bytes.saturating_add(frame.undigested());
    }
    bytes
}
