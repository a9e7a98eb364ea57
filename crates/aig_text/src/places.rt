//! The place behind bytes of a text, for texts of any length.

ghost use Rattle.std.specs.Prelude.{◌≡◌, ◌+◌, length};
ghost use Rattle.hls_base.specs.TextPlaces.{place_after, text_start};
ghost use Rattle.aig_text.specs.TextForm.{capped, capped_place};

use hls_base::place::Place;

/// The place just behind these bytes, with a line and a column of at most `u32::MAX`.
pub fn capped_place_after(bytes: &[u8]) -> Place
    ensures { result ≡ capped_place (place_after text_start bytes.now) }
{
    let mut lines = 0;
    let mut columns = 0;
    for byte in bytes {
        if *byte == b'\n' {
            lines += 1;
            columns = 0;
        } else {
            columns += 1;
        }
    }
    Place {
        line: capped_next(lines),
        column: capped_next(columns),
        part: 0,
    }
}

/// The number of a line or column that has so many before it.
fn capped_next(n: usize) -> u32
    ensures { result ≡ capped (n + 1) }
{
    if n < 4_294_967_295 {
        n as u32 + 1
    } else {
        u32::MAX
    }
}
