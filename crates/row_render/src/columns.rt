//! Pixels of rows.
ghost use Rattle.std.specs.Prelude.{◌≡◌, ◌≢◌, ℕ, ◌+◌, ◌*◌, ◌≤◌, length};
ghost use Rattle.pixel_math.specs.Pixel.{transparent};
ghost use Rattle.lane_blend.specs.Rows.{pixel_at};

/// Copies the pixel at column `from` of a row to column `to` of another.
pub(crate) fn copy_pixel(source: &[u8], from: usize, row: &mut [u8], to: usize)
    requires from { 4 * from + 4 ≤ length source.now }
    requires to { 4 * to + 4 ≤ length row.old }
    ensures there { pixel_at row.new to ≡ pixel_at source.now from }
    ensures others { (k : ℕ) → k ≢ to → pixel_at row.new k ≡ pixel_at row.old k }
{
    let (from, to) = (4 * from, 4 * to);
    row[to..to + 4].copy_from_slice(&source[from..from + 4]);
}

/// Makes the pixel at a column transparent.
pub(crate) fn clear_pixel(row: &mut [u8], at: usize)
    requires { 4 * at + 4 ≤ length row.old }
    ensures there { pixel_at row.new at ≡ transparent }
    ensures others { (k : ℕ) → k ≢ at → pixel_at row.new k ≡ pixel_at row.old k }
{
    row[4 * at..4 * at + 4].fill(0);
}
