//! Which column of a raster a column of the frame shows.
ghost use Rattle.std.specs.Prelude.{◌≡◌, ◌≢◌, ◌-ℤ◌, ◌*ℤ◌, ◌<◌, ◌≤◌, ◌^◌, pos, nat_abs, IfSome, if◌then◌else◌};
ghost use Rattle.play_types.specs.Setting.{IsWide};
ghost use Rattle.history_model.specs.pictures.Placing.{filled_column, floor_div, is_kept, twice_middle, twice_part};

use play_types::MICROS_PER_UNIT;

/// Returns the raster column that column `x` of a frame of `width` columns shows by the left edges and widths of a fill and a clip,
/// in millionths of the frame, -1,000,000,000 to 1,000,000,000, and `None` if it shows none. With a height, top edges and heights it
/// gives the row that row `x` shows.
pub fn visible_column(width: u16, fill: (i64, i64), clip: (i64, i64), x: u16) -> Option<u16>
    requires fill { IsWide fill.0 × IsWide fill.1 }
    requires clip { IsWide clip.0 × IsWide clip.1 }
    ensures value { result ≡ (if is_kept width clip.0 clip.1 x then filled_column width fill.0 fill.1 x else None) }
    ensures inside { IfSome result (λ column. column < width) }
{
    if is_kept(width, clip.0, clip.1, x) {
        filled_column(width, fill.0, fill.1, x)
    } else {
        None
    }
}

/// Returns whether column `x` of a frame of `width` columns is kept by the left edge and width of a clip, in millionths of
/// the frame.
fn is_kept(width: u16, edge: i64, extent: i64, x: u16) -> bool
    requires edge { IsWide edge }
    requires extent { IsWide extent }
    ensures { result ≡ is_kept width edge extent x }
{
    let middle = twice_middle(x);
    let start = twice_part(width, edge);
    let end = twice_part(width, edge + extent);
    start <= middle && middle < end
}

/// Returns the raster column that the left edge and width of a fill, in millionths of the frame, bring to column `x` of a
/// frame of `width` columns, and `None` if they bring none.
fn filled_column(width: u16, edge: i64, scale: i64, x: u16) -> Option<u16>
    requires edge { IsWide edge }
    requires scale { IsWide scale }
    ensures value { result ≡ filled_column width edge scale x }
    ensures inside { IfSome result (λ column. column < width) }
{
    if scale == 0 {
        return None;
    }
    let column = column_at(width, edge, scale, x);
    if column < 0 || column >= i64::from(width) {
        return None;
    }
    Some(column as u16)
}

/// Returns the number of the raster column that column `x` of a frame shows by a fill whose width is not 0. It may lie outside of
/// the raster.
fn column_at(width: u16, edge: i64, scale: i64, x: u16) -> i64
    requires edge { IsWide edge }
    requires scale { IsWide scale }
    requires some { scale ≢ pos 0 }
    ensures { result ≡ floor_div (twice_middle x -ℤ twice_part width edge) (pos 2 *ℤ scale) }
{
    floor_div(twice_middle(x) - twice_part(width, edge), 2 * scale)
}

/// Returns the quotient, rounded down, for a divisor that may be negative.
fn floor_div(number: i64, divisor: i64) -> i64
    requires number { nat_abs number < 2 ^ 62 }
    requires divisor { nat_abs divisor < 2 ^ 62 }
    requires some { divisor ≢ pos 0 }
    ensures { result ≡ floor_div number divisor }
{
    if divisor < 0 {
        (-number).div_euclid(-divisor)
    } else {
        number.div_euclid(divisor)
    }
}

/// Returns twice the middle of column `x`, in millionths of a column.
fn twice_middle(x: u16) -> i64
    ensures value { result ≡ twice_middle x }
    ensures range { nat_abs result ≤ 131071000000 }
{
    (2 * i64::from(x) + 1) * MICROS_PER_UNIT
}

/// Returns twice `millionths` millionths of `width` columns, in millionths of a column.
fn twice_part(width: u16, millionths: i64) -> i64
    requires { nat_abs millionths ≤ 2000000000 }
    ensures value { result ≡ twice_part width millionths }
    ensures range { nat_abs result ≤ 262140000000000 }
{
    2 * i64::from(width) * millionths
}
