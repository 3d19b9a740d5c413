// The tables that hold a track, as they are handed in (docs/TABLES.md).
#[derive(Clone, Copy)]
pub struct Tables<'a> {
    pub head: &'a [u32],
    pub params: &'a [u32],
    pub styles: &'a [u32],
    pub regions: &'a [u32],
    pub cues: &'a [u32],
    pub times: &'a [i64],
    pub segments: &'a [u32],
    pub sizes: &'a [f32],
    pub extras: &'a [u32],
    pub strings: &'a [u8],
    pub texts: &'a [u8],
}
