// The head of a track.
ghost use Rattle.std.specs.Prelude.{◌≡◌, ◌≤◌, length};
ghost use Rattle.std.proofs.lemmas.List.Edits.{sets};
ghost use Rattle.records.specs.Posts.{SmallHead, head_row};

use track::Span;

// How many rows each table has, xml:lang, and how many bytes of the byte tables are used.
#[derive(Clone, Copy)]
pub struct Head {
    pub params: usize,
    pub styles: usize,
    pub regions: usize,
    pub cues: usize,
    pub segments: usize,
    pub has_lang: bool,
    pub lang: Span,
    pub strings: usize,
    pub texts: usize,
}

// All its ten cells.
pub fn put_head(head: &mut [u32], x: Head)
    requires { (10 ≤ length head.old) × SmallHead x }
    ensures { head.new ≡ sets head.old 0 (head_row x) }
{
    head[0] = x.params as u32;
    head[1] = x.styles as u32;
    head[2] = x.regions as u32;
    head[3] = x.cues as u32;
    head[4] = x.segments as u32;
    crate::cells::put_optional(head, 5, x.has_lang, x.lang);
    head[8] = x.strings as u32;
    head[9] = x.texts as u32;
}
