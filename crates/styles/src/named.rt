// The named styles of a track.
ghost use Rattle.styles.specs.Steps.{Ready};

// The first `many` rows of the table of styles, with their sizes and the strings in which their names, chains and families stand.
#[derive(Clone, Copy)]
pub struct NamedStyles<'a> {
    pub styles: &'a [u32],
    pub sizes: &'a [f32],
    pub strings: &'a [u8],
    pub many: usize,
    pub ghost ready: { Ready styles.now sizes.now strings.now many },
}
