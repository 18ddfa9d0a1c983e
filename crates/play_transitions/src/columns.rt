//! The columns of a transition.
ghost use Rattle.std.specs.Prelude.{◌≡◌, ◌<◌, ◌≤◌};
ghost use Rattle.play_types.specs.Columns.{IsInRaster, pick, taken};
ghost use Rattle.play_transitions.specs.Column.{column_view};

use play_types::Kind;

/// What a transition shows at a column of the raster.
#[derive(Clone, Copy, Debug, PartialEq, Eq)]
pub enum Column {
    /// This column of the old picture.
    Old(u16),
    /// This column of the new picture.
    New(u16),
    /// The mix of both pictures at this column.
    Both(u16),
}

/// Returns what column `x` of a raster of `width` columns shows, at step `j` of a transition of `d` ticks. The new picture has taken
/// `width * j / d` columns, from the left edge, or from the right one if the transition goes leftward: it has pushed the old picture
/// as far, or slid over it, or was uncovered by an edge. A mix shows both pictures at every column, and a cut the new one alone.
pub fn pick(kind: Kind, leftward: bool, j: u32, d: u32, width: u16, x: u16) -> Column
    requires after { 0 < j }
    requires before { j < d }
    requires column { x < width }
    ensures value { column_view result ≡ pick kind leftward j d width x }
    ensures range { IsInRaster width (column_view result) }
{
    let n = taken(j, d, width);
    match (kind, leftward) {
        (Kind::Cut, _) => Column::New(x),
        (Kind::Mix, _) => Column::Both(x),
        (Kind::Push, false) if x < n => Column::New(width - n + x),
        (Kind::Push, false) => Column::Old(x - n),
        (Kind::Push, true) if x >= width - n => Column::New(x - (width - n)),
        (Kind::Push, true) => Column::Old(x + n),
        (Kind::Slide, false) if x < n => Column::New(width - n + x),
        (Kind::Slide, false) => Column::Old(x),
        (Kind::Slide, true) if x >= width - n => Column::New(x - (width - n)),
        (Kind::Slide, true) => Column::Old(x),
        (Kind::Wipe, false) if x < n => Column::New(x),
        (Kind::Wipe, false) => Column::Old(x),
        (Kind::Wipe, true) if x >= width - n => Column::New(x),
        (Kind::Wipe, true) => Column::Old(x),
    }
}

/// Returns how many columns of `width` the new picture has taken at step `j` of `d`.
pub(crate) fn taken(j: u32, d: u32, width: u16) -> u16
    requires { j < d }
    ensures value { result ≡ taken j d width }
    ensures range { result ≤ width }
{
    (u64::from(width) * u64::from(j) / u64::from(d)) as u16
}
