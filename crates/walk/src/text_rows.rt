// The rows of a cue's segments, with the texts that stand in them.
ghost use Rattle.std.specs.Prelude.{◌≡◌, true, ◌+◌, ◌*◌, ◌≤◌, length};
ghost use Rattle.track.specs.Meaning.{all_rows};
ghost use Rattle.walk.specs.Text.{row_within_of};

// `many` rows of the table of segments from row `first` on, each text of which stands within the table of texts.
#[derive(Clone, Copy)]
pub struct TextRows<'a> {
    pub segments: &'a [u32],
    pub texts: &'a [u8],
    pub first: usize,
    pub many: usize,
    pub ghost room: { (first + many) * 6 ≤ length segments.now },
    pub ghost full: { 65536 ≤ length texts.now },
    pub ghost within: { all_rows (row_within_of segments.now) many first ≡ true },
}
