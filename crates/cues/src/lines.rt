// What timed elements gave so far.

// How many cues there are, rows of segments and rows of extras; and when the last element ends.
#[derive(Clone, Copy)]
pub struct Line {
    pub cues: usize,
    pub rows: usize,
    pub extras: usize,
    pub end: i64,
}
