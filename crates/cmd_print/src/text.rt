//! Text that is gathered before it is written.

use play_outside::Gather;

/// How many bytes of text are gathered before they are written.
const GATHERED: usize = 4_096;

/// Text that is gathered: at most 4,096 bytes are one write.
pub(crate) type GatheredText = Gather<GATHERED>;
