// Parameters and extras.
ghost use Rattle.std.specs.Prelude.{◌≡◌, ◌+◌, ◌*◌, ◌≤◌, ◌<◌, ◌^◌, length};
ghost use Rattle.std.proofs.lemmas.List.Edits.{sets};
ghost use Rattle.track.specs.Tables.{param_at, extra_at};
ghost use Rattle.track.specs.Layout.{param_cells, extra_cells};
ghost use Rattle.records.specs.Posts.{SmallSpan};

use crate::rows::Row;
use track::{EXTRA_CELLS, Extra, PARAM_CELLS, PARAMS, Param};

pub fn param_at(params: &[u32], i: usize) -> Param
    requires { i * 4 + 4 ≤ length params.now }
    ensures { result ≡ param_at params.now i }
{
    let at = i * PARAM_CELLS;
    Param {
        name: track::span_at(params, at),
        value: track::span_at(params, at + 2),
    }
}

impl Row for Param {
    ghost WIDTH = { 4 };

    ghost MOST = { 64 };

    ghost cells = { param_cells };

    ghost Small = { λ x. SmallSpan x.name × SmallSpan x.value };

    const WIDTH: usize = PARAM_CELLS;

    const MOST: usize = PARAMS;

    fn put(self, table: &mut [u32], at: usize) {
        crate::cells::put_span(table, at, self.name);
        crate::cells::put_span(table, at + 2, self.value);
    }
}

pub fn extra_at(extras: &[u32], i: usize) -> Extra
    requires { i * 3 + 3 ≤ length extras.now }
    ensures { result ≡ extra_at extras.now i }
{
    let at = i * EXTRA_CELLS;
    Extra {
        number: scan::get(extras, at),
        value: track::span_at(extras, at + 1),
    }
}

// An extra in row i. Its element has at least as many attributes as extras, so that no row is met twice.
pub fn put_extra(extras: &mut [u32], i: usize, x: Extra)
    requires { (i * 3 + 3 ≤ length extras.old) × (x.number < 2 ^ 32) × SmallSpan x.value }
    ensures { extras.new ≡ sets extras.old (i * 3) (extra_cells x) }
{
    let at = i * EXTRA_CELLS;
    extras[at] = x.number as u32;
    crate::cells::put_span(extras, at + 1, x.value);
}
