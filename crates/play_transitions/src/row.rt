//! The runs of columns of a row of a transition.
ghost use Rattle.std.specs.Prelude.{◌≡◌, ℕ, ◌<◌, ◌≤◌, ◌++◌, All, IsSome};
ghost use Rattle.std.specs.Option.{option_to_list};
ghost use Rattle.play_types.specs.Columns.{pick};
ghost use Rattle.play_transitions.specs.Runs.{AreAdjacent, EndsInRaster, run_column, run_list};
ghost use Rattle.play_transitions.specs.inner.Filled.{filled, run_of};

use crate::columns::{Column, taken};
use play_types::Kind;

/// A run of columns: those from `from` on, before `to`. The first shows `column`, and each further one the next column of
/// the same picture.
#[derive(Clone, Copy, Debug, PartialEq, Eq)]
pub struct Run {
    pub from: u16,
    pub to: u16,
    pub column: Column,
}

/// At most two runs of columns, the left one first.
#[derive(Clone, Copy, Debug, PartialEq, Eq)]
pub struct RunPair {
    pub first: Option<Run>,
    pub second: Option<Run>,
}

/// Returns the runs of a raster of `width` columns at step `j` of a transition of `d` ticks. From the left, they have every column
/// once, and none is empty. At each column a run shows what [`pick`](crate::pick) returns for it.
pub fn runs(kind: Kind, leftward: bool, j: u32, d: u32, width: u16) -> RunPair
    requires after { 0 < j }
    requires before { j < d }
    ensures cover { AreAdjacent 0 width (run_list result) }
    ensures columns { All (λ run. (x : ℕ) → run.from ≤ x → x < run.to → run_column run x ≡ pick kind leftward j d width x) (run_list result) }
    ensures range { All (EndsInRaster width) (run_list result) }
    ensures first { IsSome result.second → IsSome result.first }
{
    let n = taken(j, d, width);
    let rest = width - n;
    match (kind, leftward) {
        (Kind::Cut, _) => RunPair::whole(width, Column::New(0)),
        (Kind::Mix, _) => RunPair::whole(width, Column::Both(0)),
        (Kind::Push, false) => RunPair::halves(n, width, Column::New(rest), Column::Old(0)),
        (Kind::Push, true) => RunPair::halves(rest, width, Column::Old(n), Column::New(0)),
        (Kind::Slide, false) => RunPair::halves(n, width, Column::New(rest), Column::Old(n)),
        (Kind::Slide, true) => RunPair::halves(rest, width, Column::Old(0), Column::New(0)),
        (Kind::Wipe, false) => RunPair::halves(n, width, Column::New(0), Column::Old(n)),
        (Kind::Wipe, true) => RunPair::halves(rest, width, Column::Old(0), Column::New(rest)),
    }
}

impl Run {
    /// Returns the run, if it has a column.
    fn filled(self) -> Option<Run>
        ensures { option_to_list result ≡ filled self }
    {
        if self.from < self.to {
            Some(self)
        } else {
            None
        }
    }
}

impl RunPair {
    /// Returns the run of all columns, or no run if there is no column.
    fn whole(width: u16, column: Column) -> RunPair
        ensures runs { run_list result ≡ filled (run_of 0 width column) }
        ensures first { IsSome result.second → IsSome result.first }
    {
        let run = Run {
            from: 0,
            to: width,
            column,
        };
        RunPair {
            first: run.filled(),
            second: None,
        }
    }

    /// Returns the columns before `edge` as a run that begins with `left`, and those from there on as one that begins with
    /// `right`, without those that are empty.
    fn halves(edge: u16, width: u16, left: Column, right: Column) -> RunPair
        ensures runs { run_list result ≡ filled (run_of 0 edge left) ++ filled (run_of edge width right) }
        ensures first { IsSome result.second → IsSome result.first }
    {
        let before = Run {
            from: 0,
            to: edge,
            column: left,
        };
        let after = Run {
            from: edge,
            to: width,
            column: right,
        };
        match before.filled() {
            None => RunPair {
                first: after.filled(),
                second: None,
            },
            Some(run) => RunPair {
                first: Some(run),
                second: after.filled(),
            },
        }
    }
}
