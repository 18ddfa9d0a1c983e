//! Which columns of the frame show a raster.
ghost use Rattle.std.specs.Prelude.{◌≡◌, ℕ, ◌<◌, ◌≤◌, ◌⊎◌, ℤ, pos, ◌-ℤ◌, ◌<ℤ◌, ◌≤ℤ◌, ◌^◌, nat_abs, IfSome, None};
ghost use Rattle.play_types.specs.Setting.{IsWide};
ghost use Rattle.history_model.specs.pictures.Placing.{twice_middle, twice_part};
ghost use Rattle.row_render.specs.inner.Shown.{IsShownRun, column_by};

/// Columns of the frame that show columns of a raster, from column `from` up to before `to`. Column `from + i` shows column `(number
/// + i * 2_000_000) / divisor`, rounded down.
#[derive(Clone, Copy, Drop)]
pub(crate) struct ShownRun {
    pub(crate) from: u16,
    pub(crate) to: u16,
    pub(crate) number: u64,
    pub(crate) divisor: u64,
}

/// Returns the columns of a frame of `width` columns that show a raster by the left edges and widths of a fill and a clip, in
/// millionths of the frame, and `None` if none does. The width of the fill is above 0.
pub(crate) fn shown_run(width: u16, fill: (i64, i64), clip: (i64, i64)) -> Option<ShownRun>
    requires fill { IsWide fill.0 × IsWide fill.1 }
    requires clip { IsWide clip.0 × IsWide clip.1 }
    requires upright { pos 0 <ℤ fill.1 }
    ensures hidden { result ≡ None → (x : ℕ) → x < width → column_by width fill.0 fill.1 clip.0 clip.1 x ≡ None }
    ensures shown { IfSome result (IsShownRun width fill.0 fill.1 clip.0 clip.1) }
{
    let clip_from = columns_before(width, clip.0);
    let clip_to = columns_before(width, clip.0 + clip.1);
    let fill_from = columns_before(width, fill.0);
    let fill_to = columns_before(width, fill.0 + fill.1);
    let from = if clip_from < fill_from {
        fill_from
    } else {
        clip_from
    };
    let to = if clip_to < fill_to { clip_to } else { fill_to };
    if from >= to {
        return None;
    }
    Some(ShownRun {
        from,
        to,
        number: distance(width, fill.0, from),
        divisor: 2 * fill.1 as u64,
    })
}

/// Returns how many columns of a frame of `width` columns have their middle to the left of a place, in millionths of the frame.
fn columns_before(width: u16, place: i64) -> u16
    requires { nat_abs place ≤ 2000000000 }
    ensures before { (x : ℕ) → x < result → twice_middle x <ℤ twice_part width place }
    ensures after { (x : ℕ) → x < width → result ≤ x → twice_part width place ≤ℤ twice_middle x }
    ensures range { result ≤ width }
{
    if place <= 0 {
        return 0;
    }
    let count = (2 * u64::from(width) * place as u64 + 999_999) / 2_000_000;
    if count < u64::from(width) {
        count as u16
    } else {
        width
    }
}

/// Returns twice the distance from a place, in millionths of a frame of `width` columns, to the middle of a column at or to the
/// right of it, in millionths of a column.
fn distance(width: u16, place: i64, x: u16) -> u64
    requires range { nat_abs place ≤ 1000000000 }
    requires order { twice_part width place ≤ℤ twice_middle x }
    ensures value { pos result ≡ twice_middle x -ℤ twice_part width place }
    ensures range { result < 2 ^ 62 }
{
    let middle = (2 * u64::from(x) + 1) * 1_000_000;
    let part = 2 * u64::from(width) * place.unsigned_abs();
    if place < 0 {
        middle + part
    } else {
        middle - part
    }
}
