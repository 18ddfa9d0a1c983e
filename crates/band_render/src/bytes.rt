//! The number of bytes that bands have.
ghost use Rattle.std.specs.Prelude.{◌≡◌, ◌<◌, ◌^◌};
ghost use Rattle.band_render.specs.Rows.{byte_count, rows_of, rows_of_bands};

use crate::band::Band;

/// Returns the number of bytes of the rows of a band.
pub(crate) fn bytes_of_band(band: &Band) -> usize
    ensures { result ≡ byte_count (rows_of band.now) }
{
    4 * usize::from(band.size.width) * usize::from(band.rows)
}

/// Returns the number of bytes of the rows of all bands.
pub(crate) fn bytes_of_bands(bands: &[Band]) -> usize
    requires { byte_count (rows_of_bands bands.now) < 2 ^ 64 }
    ensures { result ≡ byte_count (rows_of_bands bands.now) }
{
    let mut count = 0;
    for band in bands {
        count += bytes_of_band(band);
    }
    count
}
