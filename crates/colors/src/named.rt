// The colour names: 20 spellings and their values, in constant tables. A row of names is a name and
// blanks up to the longest one's 11 bytes; no name holds a blank, so the first one ends it.
ghost use Rattle.std.specs.Prelude.{◌≡◌};
ghost use Rattle.scan.specs.Names.{same_folded};
ghost use Rattle.colors.specs.Named.{color_table, named_in};
ghost use Rattle.colors.specs.Steps.{front};

use crate::read::{ColorError, Rgba};

const NAMES: [[u8; 11]; 20] = [
    *b"black      ",
    *b"white      ",
    *b"red        ",
    *b"green      ",
    *b"lime       ",
    *b"blue       ",
    *b"yellow     ",
    *b"cyan       ",
    *b"aqua       ",
    *b"magenta    ",
    *b"fuchsia    ",
    *b"silver     ",
    *b"gray       ",
    *b"grey       ",
    *b"maroon     ",
    *b"purple     ",
    *b"olive      ",
    *b"navy       ",
    *b"teal       ",
    *b"transparent",
];

// Red, green, blue and alpha of each.
const VALUES: [[u8; 4]; 20] = [
    [0, 0, 0, 255],
    [255, 255, 255, 255],
    [255, 0, 0, 255],
    [0, 128, 0, 255], // green, not lime
    [0, 255, 0, 255],
    [0, 0, 255, 255],
    [255, 255, 0, 255],
    [0, 255, 255, 255],
    [0, 255, 255, 255],
    [255, 0, 255, 255],
    [255, 0, 255, 255],
    [192, 192, 192, 255],
    [128, 128, 128, 255],
    [128, 128, 128, 255],
    [128, 0, 0, 255],
    [128, 0, 128, 255],
    [128, 128, 0, 255],
    [0, 0, 128, 255],
    [0, 128, 128, 255],
    [0, 0, 0, 0],
];

// Is the text, letters in any case, what stands before the first blank of the row?
fn row_is(row: [u8; 11], text: &[u8]) -> bool
    ensures { result ≡ same_folded text.now (front row) }
{
    let len = scan::find_byte(&row, 0, b' ');
    scan::eq_ignore_ascii_case(text, &row[..len])
}

// The colour of a name, letters in any case.
#[tactic(auto, using(crate::proofs::Names::table_rows))]
pub fn named(text: &[u8]) -> Result<Rgba, ColorError>
    ensures { result ≡ named_in text.now color_table }
{
    let names = NAMES;
    let values = VALUES;
    for i in 0..20 {
        if row_is(names[i], text) {
            let [r, g, b, a] = values[i];
            return Ok(Rgba { r, g, b, a });
        }
    }
    Err(ColorError::Invalid)
}
