//! What a live output reports.
use crate::live::door::Visit;
use std::fmt::{self, Display, Formatter, Write};
use std::net::SocketAddr;

/// How many readers came, or left, and the address of the last one, if it has one.
#[derive(Clone, Copy)]
struct Visits {
    count: u64,
    last: Option<SocketAddr>,
}

impl Visits {
    /// Returns no visits.
    const fn new() -> Visits {
        Visits {
            count: 0,
            last: None,
        }
    }

    /// Returns these visits and one more.
    fn and(self, last: Option<SocketAddr>) -> Visits {
        Visits {
            count: self.count.saturating_add(1),
            last,
        }
    }
}

impl Display for Visits {
    fn fmt<W: Write>(&self, f: &mut Formatter<W>) -> fmt::Result {
        match self.last {
            Some(last) => write!(f, "{} ({last})", self.count),
            None => write!(f, "{}", self.count),
        }
    }
}

/// What happened at a live output since its last report.
#[derive(Clone, Copy)]
pub(crate) struct Tally {
    came: Visits,
    left: Visits,
    /// How many frames nobody read.
    pub(crate) unread: u64,
    /// For how many frames a reader was too slow.
    pub(crate) slow: u64,
    /// What happened to the path of a pipe.
    path: PathChange,
}

/// What happened to the path of a pipe.
#[derive(Clone, Copy, Debug, PartialEq, Eq)]
enum PathChange {
    Same,
    NewPipe,
    NoPipe,
}

impl Tally {
    /// Returns the tally of an output at which nothing happened.
    pub(crate) const fn new() -> Tally {
        Tally {
            came: Visits::new(),
            left: Visits::new(),
            unread: 0,
            slow: 0,
            path: PathChange::Same,
        }
    }

    /// Adds a visit.
    pub(crate) fn add(&mut self, visit: Visit) {
        match visit {
            Visit::Came(who) => self.came = self.came.and(who),
            Visit::Left(who) => self.left = self.left.and(who),
            Visit::NewPipe => self.path = PathChange::NewPipe,
            Visit::NoPipe => self.path = PathChange::NoPipe,
        }
    }

    /// Returns whether there is something to report before the run ends. Frames that nobody read are reported with the
    /// next reader.
    pub(crate) fn is_news(&self) -> bool {
        self.came.count > 0 || self.left.count > 0 || self.slow > 0 || self.path != PathChange::Same
    }

    /// Returns whether there is anything to report.
    pub(crate) fn is_any(&self) -> bool {
        self.is_news() || self.unread > 0
    }
}

impl Display for Tally {
    fn fmt<W: Write>(&self, f: &mut Formatter<W>) -> fmt::Result {
        write!(
            f,
            "readers: {} came, {} left; frames dropped: {} that nobody read, {} for which a reader was too slow",
            self.came, self.left, self.unread, self.slow
        )?;
        match self.path {
            PathChange::Same => Ok(()),
            PathChange::NewPipe => f.write_str(
                "; another pipe has this path, and is the output now",
            ),
            PathChange::NoPipe => f.write_str("; no pipe has this path any more"),
        }
    }
}
