// The namespace itts is declared where the extras, joined as they are written, contain `itts:`. That stands
// inside a name or inside a value, since no byte of it is escaped or stands between the two.
ghost use Rattle.std.specs.Prelude.{ℕ, ◌+◌, ◌*◌, ◌≤◌, ◌<◌, ◌≡◌, length};
ghost use Rattle.writer.specs.Rows.{ExtrasReady};
ghost use Rattle.names.specs.declared.tables.Listed.TheVariants.{StyleExtra, InlineExtra, RegionAttr};
ghost use Rattle.track.specs.Handed.{lists};
ghost use Rattle.track.specs.Tables.{style_count, region_count, cue_count};
ghost use Rattle.document.specs.Roots.{some_row, itts_from, itts_one, itts_rows, itts_row, itts_text, OwnersReady};

use names::Listed;
use track::{CUE_CELLS, REGION_CELLS, STYLE_CELLS, Tables};

fn itts_from(list: Listed) -> usize
    ensures { result ≡ itts_from list }
{
    match list {
        Listed::StyleExtra => 44,
        Listed::InlineExtra => 45,
        Listed::RegionAttr => 51,
        Listed::InlineModelled => 6,
        Listed::Imsc1Extension => 3,
    }
}

// The extra in row i.
fn is_itts(list: Listed, extras: &[u32], strings: &[u8], i: usize) -> bool
    requires { ExtrasReady list extras.now strings.now i 1 }
    ensures { result ≡ itts_one list extras.now strings.now i }
{
    let x = records::extra_at(extras, i);
    let from = x.value.place;
    let len = x.value.len;
    itts_from(list) <= x.number || scan::find_seq(&strings[from..from + len], 0, b"itts:") < len
}

// The extras in n rows from row `first` on.
fn holds_itts(list: Listed, extras: &[u32], strings: &[u8], first: usize, n: usize) -> bool
    requires { ExtrasReady list extras.now strings.now first n }
    ensures { result ≡ itts_rows list extras.now strings.now first n }
{
    for i in first..first + n {
        if is_itts(list, extras, strings, i) {
            return true;
        }
    }
    false
}

// The extras of n rows of so many cells, whose first row and number stand in two cells from cell `at` on.
fn any_itts(
    list: Listed,
    cells: &[u32],
    extras: &[u32],
    strings: &[u8],
    width: usize,
    at: usize,
    n: usize,
) -> bool
    requires { OwnersReady list cells.now extras.now strings.now width at n }
    ensures { result ≡ some_row (itts_row list cells.now extras.now strings.now width at) n 0 }
{
    for i in 0..n {
        let first = scan::get(cells, i * width + at);
        let count = scan::get(cells, i * width + (at + 1));
        if holds_itts(list, extras, strings, first, count) {
            return true;
        }
    }
    false
}

// Those of all styles, regions and cues.
pub fn uses_itts(t: &Tables<'_>) -> bool
    requires { (10 ≤ length t.now.head.now)
        × OwnersReady StyleExtra t.now.styles.now t.now.extras.now t.now.strings.now 27 25 (style_count t.now.head.now)
        × OwnersReady RegionAttr t.now.regions.now t.now.extras.now t.now.strings.now 4 2 (region_count t.now.head.now)
        × OwnersReady InlineExtra t.now.cues.now t.now.extras.now t.now.strings.now 11 9 (cue_count t.now.head.now) }
    ensures { result ≡ itts_text (lists t.now) }
{
    let n = scan::get(t.head, 1);
    let m = scan::get(t.head, 2);
    let k = scan::get(t.head, 3);
    any_itts(
        Listed::StyleExtra,
        t.styles,
        t.extras,
        t.strings,
        STYLE_CELLS,
        25,
        n,
    ) || any_itts(
        Listed::RegionAttr,
        t.regions,
        t.extras,
        t.strings,
        REGION_CELLS,
        2,
        m,
    ) || any_itts(
        Listed::InlineExtra,
        t.cues,
        t.extras,
        t.strings,
        CUE_CELLS,
        9,
        k,
    )
}
