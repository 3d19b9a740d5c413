// The attributes of an element.
ghost use Rattle.std.specs.Prelude.{ℕ, ◌*◌, ◌-◌, ◌≤◌, length};
ghost use Rattle.xml.specs.Rows.{WithinRows};

// `many` rows of the tree's table of attributes from row `first` on, whose names and values stand in the strings.
#[derive(Clone, Copy)]
pub struct Attributes<'a> {
    pub attrs: &'a [u32],
    pub strings: &'a [u8],
    pub first: usize,
    pub many: usize,
    pub ghost room: { many * 4 ≤ length attrs.now - first * 4 },
    pub ghost within: { WithinRows attrs.now strings.now first many },
}
