//! When the fill level of the history's journal is reported.
ghost use Rattle.std.specs.Prelude.{◌≡◌, ◌<◌, ◌↔◌, IsTrue};
ghost use Rattle.real_devices.specs.declared.fill.Level.TheVariants.{Low};
ghost use Rattle.real_devices.specs.inner.Fill.{IsLevel, Notes, rank};

/// How full a journal is.
#[derive(Clone, Copy, Debug, PartialEq, Eq)]
pub(crate) enum Level {
    /// It holds less than nine tenths of its limit.
    Low,
    /// It holds nine tenths of its limit or more, and is not full.
    NineTenths,
    /// It holds as many commands as its limit.
    Full,
}

impl Level {
    /// Returns whether it is fuller than another.
    fn is_above(self, other: Level) -> bool
        ensures { IsTrue result ↔ (rank other < rank self) }
    {
        match self {
            Level::Low => false,
            Level::NineTenths => matches!(other, Level::Low),
            Level::Full => !matches!(other, Level::Full),
        }
    }
}

/// The fill level of a journal when it was last reported.
#[derive(Clone, Copy, Debug, PartialEq, Eq)]
pub(crate) struct Fill {
    /// The most commands of the journal.
    limit: u32,
    said: Level,
}

impl Fill {
    /// Returns the fill of a journal of at most `limit` commands, of which nothing was reported.
    pub(crate) const fn new(limit: u32) -> Fill
        ensures { result ≡ record { limit = limit; said = Low } }
    {
        Fill {
            limit,
            said: Level::Low,
        }
    }

    /// Returns the most commands of the journal.
    pub(crate) fn limit(&self) -> u32
        ensures { result ≡ self.now.limit }
    {
        self.limit
    }

    /// Notes that the journal holds `commands` commands, and returns its level if that is fuller than the one that was
    /// last reported. So each level is reported once at most.
    pub(crate) fn note(&mut self, commands: u32) -> Option<Level>
        ensures { Notes result commands self.old self.new }
    {
        let level = level_of(self.limit, commands);
        if level.is_above(self.said) {
            self.said = level;
            return Some(level);
        }
        None
    }
}

/// Returns the level of a journal that holds `commands` of at most `limit` commands.
fn level_of(limit: u32, commands: u32) -> Level
    ensures { IsLevel limit commands result }
{
    if commands >= limit {
        Level::Full
    } else if u64::from(commands) * 10 >= u64::from(limit) * 9 {
        Level::NineTenths
    } else {
        Level::Low
    }
}
