// A text that is written: the buffer that is lent for it, and how far it is written.
ghost use Rattle.std.specs.Prelude.{◌≤◌, length};

#[derive(Drop)]
pub struct Out<'a> {
    pub bytes: &'a mut [u8],
    pub at: usize,
    pub ghost within: { at ≤ length bytes.now },
}
