//! Where everything of a picture stands, in pixels.
ghost use Rattle.std.specs.Prelude.{◌≡◌, ◌<◌, ◌≤◌, ◌^◌};
ghost use Rattle.mely_picture.specs.Layout.{left_of as left, row_top as top_of_row, hue_of as hue};
ghost use Rattle.mely_picture.specs.Drawings.{text_limit};

/// How wide an entry is.
pub const STEP: u64 = 28;

/// The upper edge of a core's row.
pub fn row_top(top: u64, core: u16) -> u64
    requires { top < 2 ^ 40 }
    ensures value { result ≡ top_of_row top core }
    ensures range { result < 2 ^ 41 }
{
    top + 32 + 40 * u64::from(core)
}

/// A colour's hue, in degrees.
pub fn hue_of(colour: u16) -> u64
    ensures { result ≡ hue colour }
{
    137 * u64::from(colour) % 360
}

/// The left edge of the entry at a place.
pub fn left_of(at: u64) -> u64
    requires { at ≤ text_limit }
    ensures value { result ≡ left at }
    ensures range { result < 2 ^ 40 }
{
    76 + STEP * at
}
