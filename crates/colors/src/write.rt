// A colour written in hexadecimal.
ghost use Rattle.std.specs.Prelude.{◌≡◌, ◌+◌, ◌≤◌, length};
ghost use Rattle.scan.specs.Posts.{Appended, Wrote};
ghost use Rattle.colors.specs.Written.{rgb_text, rgba_text};

use crate::read::Rgba;

// Red, green and blue after a `#`, at a place with room for them.
fn put_rgb(out: &mut [u8], at: usize, c: Rgba) -> usize
    requires { at + 7 ≤ length out.old }
    ensures { Appended (rgb_text c) at out.old out.new result }
{
    out[at] = b'#';
    let green = numerals::put_digits(out, at + 1, c.r as u64, 16, 2);
    let blue = numerals::put_digits(out, green, c.g as u64, 16, 2);
    numerals::put_digits(out, blue, c.b as u64, 16, 2)
}

// `#RRGGBB` written at a place, if it fits.
pub fn append_rgb(out: &mut [u8], at: usize, c: Rgba) -> Option<usize>
    requires { at ≤ length out.old }
    ensures { Wrote (rgb_text c) at out.old out.new result }
{
    if out.len() - at < 7 {
        return None;
    }
    Some(put_rgb(out, at, c))
}

// `#RRGGBBAA` written at a place, if it fits.
pub fn append_rgba(out: &mut [u8], at: usize, c: Rgba) -> Option<usize>
    requires { at ≤ length out.old }
    ensures { Wrote (rgba_text c) at out.old out.new result }
{
    if out.len() - at < 9 {
        return None;
    }
    let alpha = put_rgb(out, at, c);
    Some(numerals::put_digits(out, alpha, c.a as u64, 16, 2))
}
