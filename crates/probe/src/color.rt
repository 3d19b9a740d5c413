// C names for colours. What an answer fills is written only where it is one.
ghost use Rattle.std.specs.Prelude.{◌≡◌, ◌≤◌, length, leb};
ghost use Rattle.std.proofs.lemmas.List.Edits.{sets};
ghost use Rattle.colors.specs.Colors.{color_in};
ghost use Rattle.colors.specs.Named.{rgba};
ghost use Rattle.probe.specs.Answers.{Answered, Filled};
ghost use Rattle.probe.specs.Colors.{rgba_cells, color_code, color_cells, color_text};

use colors::{ColorError, Rgba};

// Red, green, blue and alpha, in the first four bytes.
fn put_rgba(c: Rgba, out: &mut [u8])
    requires { 4 ≤ length out.old }
    ensures { out.new ≡ sets out.old 0 (rgba_cells c) }
{
    out[0] = c.r;
    out[1] = c.g;
    out[2] = c.b;
    out[3] = c.a;
}

// The colour that the text is: 0 none, 1 one, with red, green, blue and alpha in the first four
// bytes, or document 01's number 15. 2 if there are fewer.
pub fn probe_color(text: &[u8], out: &mut [u8]) -> u32
    ensures { Answered (leb 4 (length out.old)) (color_code (color_in text.now))
        (color_cells (color_in text.now)) 2 out.old out.new result }
{
    if out.len() < 4 {
        return 2;
    }
    match colors::parse_ttml_color_rgba(text) {
        Ok(c) => {
            put_rgba(c, out);
            1
        }
        Err(ColorError::Invalid) => 0,
        Err(ColorError::Cut) => 15,
    }
}

// The colour in hexadecimal, with its alpha or without, at the start of out: how many bytes, or
// 2^64 - 1 if it does not fit.
pub fn probe_color_text(r: u8, g: u8, b: u8, a: u8, alpha: bool, out: &mut [u8]) -> usize
    ensures { Filled (length (color_text alpha (rgba r g b a))) (color_text alpha (rgba r g b a)) out.old out.new result }
{
    let c = Rgba { r, g, b, a };
    if alpha {
        crate::place_of(colors::append_rgba(out, 0, c))
    } else {
        crate::place_of(colors::append_rgb(out, 0, c))
    }
}
