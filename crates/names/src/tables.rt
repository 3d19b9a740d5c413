// Five ordered lists of names, as constant tables. A row is a name and blanks up to the longest
// one's 25 bytes; no name holds a blank, so the first one ends it. A constant is made anew on the
// stack where it is used, so the three long lists stand in two parts each.
ghost use Rattle.std.specs.Prelude.{◌≡◌, ◌<◌, ◌≤◌, length, take};
ghost use Rattle.names.specs.Lists.{names, name_of, style_extra, inline_extra, region_attr, inline_modelled, imsc1_extension};
ghost use Rattle.names.specs.Posts.{Cut, Holds, HoldsAt};

// The lists, after the Rust's constants.
#[derive(Clone, Copy)]
pub enum Listed {
    StyleExtra,
    InlineExtra,
    RegionAttr,
    InlineModelled,
    Imsc1Extension,
}

// The name is the first `len` bytes; the rest are blanks.
#[derive(Clone, Copy)]
pub struct Name {
    pub bytes: [u8; 25],
    pub len: usize,
}

impl Name {
    pub(crate) fn as_bytes(&self) -> &[u8]
        requires { self.now.len ≤ length self.now.bytes }
        ensures { result.now ≡ take self.now.len self.now.bytes }
    {
        &self.bytes[..self.len]
    }
}

const STYLE_EXTRA_ORDER_A_TO_L: [[u8; 25]; 22] = [
    *b"tts:backgroundClip       ",
    *b"tts:backgroundExtent     ",
    *b"tts:backgroundImage      ",
    *b"tts:backgroundOrigin     ",
    *b"tts:backgroundPosition   ",
    *b"tts:backgroundRepeat     ",
    *b"tts:border               ",
    *b"tts:bpd                  ",
    *b"tts:direction            ",
    *b"tts:disparity            ",
    *b"tts:display              ",
    *b"tts:displayAlign         ",
    *b"tts:extent               ",
    *b"tts:fontKerning          ",
    *b"tts:fontSelectionStrategy",
    *b"tts:fontShear            ",
    *b"tts:fontVariant          ",
    *b"tts:ipd                  ",
    *b"tts:letterSpacing        ",
    *b"tts:lineHeight           ",
    *b"tts:lineShear            ",
    *b"tts:luminanceGain        ",
];

const STYLE_EXTRA_ORDER_O_TO_Z: [[u8; 25]; 24] = [
    *b"tts:opacity              ",
    *b"tts:origin               ",
    *b"tts:overflow             ",
    *b"tts:padding              ",
    *b"tts:position             ",
    *b"tts:ruby                 ",
    *b"tts:rubyAlign            ",
    *b"tts:rubyPosition         ",
    *b"tts:rubyReserve          ",
    *b"tts:shear                ",
    *b"tts:showBackground       ",
    *b"tts:textAlign            ",
    *b"tts:textCombine          ",
    *b"tts:textEmphasis         ",
    *b"tts:textOrientation      ",
    *b"tts:textOutline          ",
    *b"tts:textShadow           ",
    *b"tts:unicodeBidi          ",
    *b"tts:visibility           ",
    *b"tts:wrapOption           ",
    *b"tts:writingMode          ",
    *b"tts:zIndex               ",
    *b"itts:forcedDisplay       ",
    *b"itts:fillLineGap         ",
];

const P_INLINE_EXTRA_ORDER_A_TO_L: [[u8; 25]; 23] = [
    *b"tts:backgroundClip       ",
    *b"tts:backgroundColor      ",
    *b"tts:backgroundExtent     ",
    *b"tts:backgroundImage      ",
    *b"tts:backgroundOrigin     ",
    *b"tts:backgroundPosition   ",
    *b"tts:backgroundRepeat     ",
    *b"tts:border               ",
    *b"tts:bpd                  ",
    *b"tts:direction            ",
    *b"tts:disparity            ",
    *b"tts:display              ",
    *b"tts:displayAlign         ",
    *b"tts:extent               ",
    *b"tts:fontKerning          ",
    *b"tts:fontSelectionStrategy",
    *b"tts:fontShear            ",
    *b"tts:fontVariant          ",
    *b"tts:ipd                  ",
    *b"tts:letterSpacing        ",
    *b"tts:lineHeight           ",
    *b"tts:lineShear            ",
    *b"tts:luminanceGain        ",
];

const P_INLINE_EXTRA_ORDER_O_TO_Z: [[u8; 25]; 24] = [
    *b"tts:opacity              ",
    *b"tts:origin               ",
    *b"tts:overflow             ",
    *b"tts:padding              ",
    *b"tts:position             ",
    *b"tts:ruby                 ",
    *b"tts:rubyAlign            ",
    *b"tts:rubyPosition         ",
    *b"tts:rubyReserve          ",
    *b"tts:shear                ",
    *b"tts:showBackground       ",
    *b"tts:textAlign            ",
    *b"tts:textCombine          ",
    *b"tts:textEmphasis         ",
    *b"tts:textOrientation      ",
    *b"tts:textOutline          ",
    *b"tts:textShadow           ",
    *b"tts:unicodeBidi          ",
    *b"tts:visibility           ",
    *b"tts:wrapOption           ",
    *b"tts:writingMode          ",
    *b"tts:zIndex               ",
    *b"itts:forcedDisplay       ",
    *b"itts:fillLineGap         ",
];

const REGION_ATTR_ORDER_A_TO_L: [[u8; 25]; 28] = [
    *b"tts:backgroundClip       ",
    *b"tts:backgroundColor      ",
    *b"tts:backgroundExtent     ",
    *b"tts:backgroundImage      ",
    *b"tts:backgroundOrigin     ",
    *b"tts:backgroundPosition   ",
    *b"tts:backgroundRepeat     ",
    *b"tts:border               ",
    *b"tts:bpd                  ",
    *b"tts:color                ",
    *b"tts:direction            ",
    *b"tts:disparity            ",
    *b"tts:display              ",
    *b"tts:displayAlign         ",
    *b"tts:extent               ",
    *b"tts:fontFamily           ",
    *b"tts:fontKerning          ",
    *b"tts:fontSelectionStrategy",
    *b"tts:fontShear            ",
    *b"tts:fontSize             ",
    *b"tts:fontStyle            ",
    *b"tts:fontVariant          ",
    *b"tts:fontWeight           ",
    *b"tts:ipd                  ",
    *b"tts:letterSpacing        ",
    *b"tts:lineHeight           ",
    *b"tts:lineShear            ",
    *b"tts:luminanceGain        ",
];

const REGION_ATTR_ORDER_O_TO_Z: [[u8; 25]; 25] = [
    *b"tts:opacity              ",
    *b"tts:origin               ",
    *b"tts:overflow             ",
    *b"tts:padding              ",
    *b"tts:position             ",
    *b"tts:ruby                 ",
    *b"tts:rubyAlign            ",
    *b"tts:rubyPosition         ",
    *b"tts:rubyReserve          ",
    *b"tts:shear                ",
    *b"tts:showBackground       ",
    *b"tts:textAlign            ",
    *b"tts:textCombine          ",
    *b"tts:textEmphasis         ",
    *b"tts:textOrientation      ",
    *b"tts:textOutline          ",
    *b"tts:textShadow           ",
    *b"tts:unicodeBidi          ",
    *b"tts:visibility           ",
    *b"tts:wrapOption           ",
    *b"tts:writingMode          ",
    *b"tts:zIndex               ",
    *b"style                    ",
    *b"itts:forcedDisplay       ",
    *b"itts:fillLineGap         ",
];

const P_INLINE_MODELLED_ATTRS: [[u8; 25]; 6] = [
    *b"tts:color                ",
    *b"tts:fontFamily           ",
    *b"tts:fontSize             ",
    *b"tts:fontWeight           ",
    *b"tts:fontStyle            ",
    *b"tts:textDecoration       ",
];

const IMSC1_EXTENSION_PARAMS: [[u8; 25]; 3] = [
    *b"activeArea               ",
    *b"aspectRatio              ",
    *b"progressivelyDecodable   ",
];

// A row with its name's length.
pub fn cut(row: [u8; 25]) -> Name
    ensures { Cut row result }
{
    let len = scan::find_byte(&row, 0, b' ');
    Name { bytes: row, len }
}

// One function to a list, so that each takes only its own rows onto the stack.
fn style_extra(i: usize) -> Name
    requires { i < 46 }
    ensures { HoldsAt style_extra i result }
{
    if i < 22 {
        cut(STYLE_EXTRA_ORDER_A_TO_L[i])
    } else {
        cut(STYLE_EXTRA_ORDER_O_TO_Z[i - 22])
    }
}

fn inline_extra(i: usize) -> Name
    requires { i < 47 }
    ensures { HoldsAt inline_extra i result }
{
    if i < 23 {
        cut(P_INLINE_EXTRA_ORDER_A_TO_L[i])
    } else {
        cut(P_INLINE_EXTRA_ORDER_O_TO_Z[i - 23])
    }
}

fn region_attr(i: usize) -> Name
    requires { i < 53 }
    ensures { HoldsAt region_attr i result }
{
    if i < 28 {
        cut(REGION_ATTR_ORDER_A_TO_L[i])
    } else {
        cut(REGION_ATTR_ORDER_O_TO_Z[i - 28])
    }
}

fn inline_modelled(i: usize) -> Name
    requires { i < 6 }
    ensures { HoldsAt inline_modelled i result }
{
    cut(P_INLINE_MODELLED_ATTRS[i])
}

fn imsc1_extension(i: usize) -> Name
    requires { i < 3 }
    ensures { HoldsAt imsc1_extension i result }
{
    cut(IMSC1_EXTENSION_PARAMS[i])
}

// A list's i-th name, from 0 on.
pub fn name_at(list: Listed, i: usize) -> Name
    requires { i < length (names list) }
    ensures { Holds (name_of list i) result }
{
    match list {
        Listed::StyleExtra => style_extra(i),
        Listed::InlineExtra => inline_extra(i),
        Listed::RegionAttr => region_attr(i),
        Listed::InlineModelled => inline_modelled(i),
        Listed::Imsc1Extension => imsc1_extension(i),
    }
}
