// A reference: `&`, a name that is known, `;`.
ghost use Rattle.std.specs.Prelude.{◌≡◌, ◌≤◌, ◌<◌, ◌^◌, length};
ghost use Rattle.utf8.specs.Utf8.{scalar};
ghost use Rattle.entities.specs.Reference.{character, character_reference, named, entity_table, lookup};
ghost use Rattle.entities.specs.Steps.{taken_byte, NameEnd, Refers};

use numerals::Whole;

#[tactic(auto, unfolding(utf8::specs::Utf8::scalar))]
fn is_scalar(n: u64) -> bool
    ensures { result ≡ scalar n }
{
    matches!(n, 0..=0xD7FF | 0xE000..=0x10FFFF)
}

// The character that the number names; a surrogate, or a number past the last character, names none.
#[tactic(auto, using(crate::proofs::References::small))]
fn char_of(n: Option<Whole>) -> Option<u32>
    ensures { result ≡ character n }
{
    let size = n?.magnitude;
    if is_scalar(size) {
        Some(size as u32)
    } else {
        None
    }
}

// A character reference, after its `#`.
#[tactic(auto, unfolding(crate::specs::Reference::character_reference))]
fn lookup_number(rest: &[u8]) -> Option<u32>
    ensures { result ≡ character_reference rest.now }
{
    match rest {
        [] => None,
        [b'x' | b'X', hex @ ..] => char_of(numerals::read_numeral(hex, 16, 0xFFFF_FFFF, false)),
        _ => char_of(numerals::read_numeral(rest, 10, 0xFFFF_FFFF, false)),
    }
}

// An entity that has a name.
#[tactic(auto, using(crate::proofs::References::named_other), unfolding(crate::specs::Reference::named, scan::specs::Names::same_bytes_of))]
fn lookup_name(word: &[u8]) -> Option<u32>
    ensures { result ≡ named word.now entity_table }
{
    match word {
        b"amp" => Some(0x26),
        b"lt" => Some(0x3C),
        b"gt" => Some(0x3E),
        b"quot" => Some(0x22),
        b"apos" => Some(0x27),
        b"nbsp" => Some(0xA0),
        _ => None,
    }
}

// What the name between `&` and `;` stands for.
#[tactic(auto, unfolding(crate::specs::Reference::lookup))]
pub fn lookup_entity(name: &[u8]) -> Option<u32>
    ensures { result ≡ lookup name.now }
{
    match name {
        [] => None,
        [b'#', number @ ..] => lookup_number(number),
        _ => lookup_name(name),
    }
}

// White space past ASCII is not looked for: no known name has a byte past 127, so that a name with
// one stays as it is, wherever it ends.
#[tactic(auto, unfolding(crate::specs::Steps::taken_byte))]
fn is_taken(b: u8) -> bool
    ensures { result ≡ taken_byte b }
{
    !matches!(b, b'\t'..=b'\r' | b' ' | b'&' | b';' | b'<')
}

// Where the name at the place ends; a name of 17 bytes or more is not followed further.
#[tactic(auto, using(crate::proofs::References::name_places))]
fn name_end(src: &[u8], pos: usize) -> usize
    requires { pos ≤ length src.now }
    ensures { NameEnd src.now pos result }
{
    for i in pos..src.len() {
        if 17 <= i - pos || !is_taken(src[i]) {
            return i;
        }
    }
    src.len()
}

// What stands at the place after an `&`.
#[tactic(auto, using(crate::proofs::References::ways))]
pub fn reference(src: &[u8], pos: usize) -> Option<(u32, usize)>
    requires { pos ≤ length src.now }
    ensures { Refers src.now pos result }
{
    let end = name_end(src, pos);
    if src.len() <= end || 16 < end - pos || src[end] != b';' {
        return None;
    }
    let c = lookup_entity(&src[pos..end])?;
    Some((c, end + 1))
}
