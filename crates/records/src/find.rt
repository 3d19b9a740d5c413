// Lookups by name. Of equal names the first counts; chains and extras are those of the first style of the
// name that has some.
ghost use Rattle.std.specs.Prelude.{◌≡◌, true, ℕ, ◌+◌, ◌*◌, ◌≤◌, ◌<◌, length, get_or};
ghost use Rattle.track.specs.Meaning.{is_span};
ghost use Rattle.records.specs.Find.{is_named, first_row, first_with, Named};

use track::{REGION_CELLS, STYLE_CELLS};

// Is this the string whose place and length stand at a cell?
fn is_named(cells: &[u32], strings: &[u8], at: usize, name: &[u8]) -> bool
    requires { (at + 2 ≤ length cells.now) × (get_or cells.now at 0 + get_or cells.now (at + 1) 0 ≤ length strings.now) }
    ensures { result ≡ is_named cells.now strings.now name.now at }
{
    let start = scan::get(cells, at);
    let end = start + scan::get(cells, at + 1);
    scan::same(&strings[start..end], name)
}

// The first of n rows of so many cells that begins with this name.
fn find_row(cells: &[u32], strings: &[u8], width: usize, n: usize, name: &[u8]) -> Option<usize>
    requires { Named cells.now strings.now width n }
    ensures { result ≡ first_row cells.now strings.now name.now width n 0 }
{
    for i in 0..n {
        if is_named(cells, strings, i * width, name) {
            return Some(i);
        }
    }
    None
}

// The same, of rows whose cell `needed` is not zero.
fn find_with(
    cells: &[u32],
    strings: &[u8],
    width: usize,
    needed: usize,
    n: usize,
    name: &[u8],
) -> Option<usize>
    requires { Named cells.now strings.now width n × (needed < width) }
    ensures { result ≡ first_with cells.now strings.now name.now width needed n 0 }
{
    for i in 0..n {
        if cells[i * width + needed] != 0 && is_named(cells, strings, i * width, name) {
            return Some(i);
        }
    }
    None
}

// The Rust's `style`: the first of n styles of this name.
pub fn find_style(styles: &[u32], strings: &[u8], n: usize, name: &[u8]) -> Option<usize>
    requires { Named styles.now strings.now 27 n }
    ensures { result ≡ first_row styles.now strings.now name.now 27 n 0 }
{
    find_row(styles, strings, STYLE_CELLS, n, name)
}

// The first style of this name that has a chain.
pub fn find_chain(styles: &[u32], strings: &[u8], n: usize, name: &[u8]) -> Option<usize>
    requires { Named styles.now strings.now 27 n }
    ensures { result ≡ first_with styles.now strings.now name.now 27 3 n 0 }
{
    find_with(styles, strings, STYLE_CELLS, 3, n, name)
}

// The first style of this name that has extras.
pub fn find_extras(styles: &[u32], strings: &[u8], n: usize, name: &[u8]) -> Option<usize>
    requires { Named styles.now strings.now 27 n }
    ensures { result ≡ first_with styles.now strings.now name.now 27 26 n 0 }
{
    find_with(styles, strings, STYLE_CELLS, 26, n, name)
}

// The first region of this id.
pub fn find_region(regions: &[u32], strings: &[u8], n: usize, id: &[u8]) -> Option<usize>
    requires { Named regions.now strings.now 4 n }
    ensures { result ≡ first_row regions.now strings.now id.now 4 n 0 }
{
    find_row(regions, strings, REGION_CELLS, n, id)
}
