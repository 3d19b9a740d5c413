// The tables that the call looks at: of a track's those that hold what its cues say.
#[derive(Clone, Copy)]
pub struct Tables<'a> {
    pub head: &'a [u32],
    pub cues: &'a [u32],
    pub segments: &'a [u32],
    pub texts: &'a [u8],
}
