// The attributes that a region keeps as they were.
ghost use Rattle.queries.specs.Steps.{HasExtras};

// `many` rows of the table of extras from row `first` on, whose values stand among the strings.
#[derive(Clone, Copy)]
pub struct Kept<'a> {
    pub extras: &'a [u32],
    pub strings: &'a [u8],
    pub first: usize,
    pub many: usize,
    pub ghost has_extras: { HasExtras extras.now strings.now first many },
}
