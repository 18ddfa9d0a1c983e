//! Writes that are tried again.
ghost use Rattle.std.specs.Prelude.{◌≡◌, ◌↔◌, ◌-◌, ◌<◌, ◌≤◌, length, take, IfOk, IsTrue, MatchResult};
ghost use Rattle.std.specs.Io.KnownBytes.{Appends, Keeps};
ghost use Rattle.real_devices.specs.inner.Patience.{Counts, Restores};

use std::io::{self, Error, ErrorKind, Write};

/// How many interruptions of one call make it fail.
pub const INTERRUPTIONS: u32 = 1_000;

/// How many waits, of a tenth of a second each, the writes to a client may take between two of its reads.
pub const WRITE_WAITS: u32 = 100;

/// How many bytes a client takes for `RESTORED_WAITS` waits to be restored.
pub const RESTORING_BYTES: u32 = 65_536;

/// How many waits are restored for `RESTORING_BYTES` bytes that a client takes.
pub const RESTORED_WAITS: u32 = 10;

/// How many more times writes may wait.
#[derive(Clone, Copy, Debug, PartialEq, Eq)]
pub(crate) struct Patience {
    waits: u32,
    /// How many bytes were taken since waits were last restored.
    taken: u32,
}

impl Patience {
    /// For a file: a call that would have to wait fails at once.
    pub(crate) const FILE: Patience = Patience { waits: 1, taken: 0 };

    /// For a client, which may take nothing for ten seconds.
    pub(crate) const CLIENT: Patience = Patience {
        waits: WRITE_WAITS,
        taken: 0,
    };

    /// Counts a wait, and returns whether there may be more.
    fn wait(&mut self) -> bool
        ensures waits { self.new ≡ record self.old { waits = self.old.waits - 1 } }
        ensures more { IsTrue result ↔ (0 < self.new.waits) }
    {
        self.waits = self.waits.saturating_sub(1);
        self.waits > 0
    }

    /// Counts a write of `asked` bytes that took `count` of them.
    pub(crate) fn count(&mut self, count: usize, asked: usize)
        ensures { Counts count asked self.old self.new }
    {
        self.restore(count);
        self.waits = self.waits.saturating_sub(u32::from(count < asked));
    }

    /// Restores waits for `count` bytes that were taken.
    fn restore(&mut self, count: usize)
        ensures { Restores count self.old self.new }
    {
        let taken = u128::from(self.taken) + count as u128;
        let restored = u128::from(RESTORED_WAITS) * (taken / u128::from(RESTORING_BYTES));
        self.waits = (u128::from(self.waits) + restored).min(u128::from(WRITE_WAITS)) as u32;
        self.taken = (taken % u128::from(RESTORING_BYTES)) as u32;
    }

    /// Returns whether no wait is left.
    pub(crate) fn is_spent(&self) -> bool
        ensures { IsTrue result ↔ (self.now.waits ≡ 0) }
    {
        self.waits == 0
    }
}

/// Writes a prefix of the piece, at least one byte, and returns how many bytes were taken. The write is made again
/// after interruptions, and after waits as far as `patience` allows.
pub(crate) fn write_some<W: Write>(
    output: &mut W,
    piece: &[u8],
    patience: &mut Patience,
) -> io::Result<usize>
    requires { 0 < length piece.now }
    ensures count { IfOk result (λ count. (0 < count) × (count ≤ length piece.now)) }
    ensures stream { MatchResult result
        (λ count. Appends (W.contents output.old) (W.contents output.new) (take count piece.now))
        (λ error. Keeps (W.contents output.old) (W.contents output.new)) }
{
    let mut interruptions = INTERRUPTIONS;
    for _ in 0..INTERRUPTIONS + WRITE_WAITS {
        match output.write(piece) {
            Ok(0) => return Err(Error::from(ErrorKind::WriteZero)),
            Ok(count) => return Ok(count),
            Err(error) => {
                if !goes_on(&mut interruptions, patience, error.kind()) {
                    return Err(error);
                }
            }
        }
    }
    Err(Error::from(ErrorKind::TimedOut))
}

/// Counts an error of this kind, and returns whether the call is made again.
fn goes_on(interruptions: &mut u32, patience: &mut Patience, kind: ErrorKind) -> bool {
    match kind {
        ErrorKind::Interrupted => {
            *interruptions = interruptions.saturating_sub(1);
            *interruptions > 0
        }
        ErrorKind::WouldBlock | ErrorKind::TimedOut => patience.wait(),
        _ => false,
    }
}
