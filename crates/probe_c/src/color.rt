// C names for colours. What an answer fills is written only where it is one.
ghost use Rattle.std.specs.Prelude.{length, leb};
ghost use Rattle.colors.specs.Colors.{color_in};
ghost use Rattle.colors.specs.Named.{rgba};
ghost use Rattle.probe.specs.Answers.{Answered, Filled};
ghost use Rattle.probe.specs.Colors.{color_code, color_cells, color_text};

// The colour that the text is: 0 none, 1 one, with red, green, blue and alpha in the first four
// bytes, or document 01's number 15. 2 if there are fewer.
#[unsafe(no_mangle)]
pub extern "C" fn probe_color(text: &[u8], out: &mut [u8]) -> u32
    ensures { Answered (leb 4 (length out.old)) (color_code (color_in text.now))
        (color_cells (color_in text.now)) 2 out.old out.new result }
{
    probe::probe_color(text, out)
}

// The colour in hexadecimal, with its alpha or without, at the start of out: how many bytes, or
// 2^64 - 1 if it does not fit.
#[unsafe(no_mangle)]
pub extern "C" fn probe_color_text(r: u8, g: u8, b: u8, a: u8, alpha: bool, out: &mut [u8]) -> usize
    ensures { Filled (length (color_text alpha (rgba r g b a))) (color_text alpha (rgba r g b a)) out.old out.new result }
{
    probe::probe_color_text(r, g, b, a, alpha, out)
}
