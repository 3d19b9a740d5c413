// Names looked for in a list, and written.
ghost use Rattle.std.specs.Prelude.{◌≡◌, ◌≤◌, ◌<◌, length, get_or};
ghost use Rattle.scan.specs.Names.{same_bytes_of, same_folded};
ghost use Rattle.scan.specs.Posts.{Wrote};
ghost use Rattle.names.specs.Lists.{names, name_of};
ghost use Rattle.names.specs.Numbers.{name_number, contains_name};
ghost use Rattle.names.specs.Steps.{slot_of, slots, is_initial, can_begin};

use crate::tables::{Listed, name_at};

// Is this the list's i-th name, letters in any case?
pub fn is_name(list: Listed, i: usize, name: &[u8]) -> bool
    requires { i < length (names list) }
    ensures { result ≡ same_folded name.now (name_of list i) }
{
    let entry = name_at(list, i);
    scan::eq_ignore_ascii_case(name, entry.as_bytes())
}

// Are these the bytes of the list's i-th name?
fn is_exactly(list: Listed, i: usize, name: &[u8]) -> bool
    requires { i < length (names list) }
    ensures { result ≡ same_bytes_of name.now (name_of list i) }
{
    let entry = name_at(list, i);
    scan::same(name, entry.as_bytes())
}

// Where a name can stand in a list: its length and two of its letters leave one entry at most, whatever
// their case. The tables of slots have a byte to each of 129: `#` for entry 0, the bytes after `#` for the
// next ones, and a blank where there is none.
#[tactic(auto, unfolding(crate::specs::Steps::slot_of))]
fn slot(name: &[u8]) -> usize
    ensures { result ≡ slot_of name.now }
{
    let n = name.len();
    if n < 5 {
        return 0;
    }
    let front = (name[4] % 32) as usize;
    let back = (name[n - 4] % 32) as usize;
    (n + 50 * front + 14 * back) % 129
}

const STYLE_EXTRA_SLOTS: [u8; 129] =
    *b"         G E $5' C  D H /L   9 #   @  2B   %   4-?    3  M  =J        8 ;     , 7 A * (N 1   < 6P       ) +     :    &   K O0I.F>";

const INLINE_EXTRA_SLOTS: [u8; 129] =
    *b"         H F %6( D  E I 0M   : #   A  3C   &   5.@    4  N  >K        9$<     - 8 B + )O 2   = 7Q       * ,     ;    '   L P1J/G?";

const REGION_ATTR_SLOTS: [u8; 129] =
    *b"         M K %;( I UJ N 1R   ? #   F  5H   &   :/E   98  S  CP6       >$A    7. = G + )T 4   B <W       * -  2 ,@    '   Q V3O0LD";

const INLINE_MODELLED_SLOTS: [u8; 129] =
    *b"        (                                            &        %              '                               $ #                 ";

const IMSC1_EXTENSION_SLOTS: [u8; 129] =
    *b"                                 %            $                                             #                                    ";

// What stands in the list's slot.
fn in_slot(list: Listed, slot: usize) -> u8
    requires { slot < 129 }
    ensures { result ≡ get_or (slots list) slot 0 }
{
    match list {
        Listed::StyleExtra => STYLE_EXTRA_SLOTS[slot],
        Listed::InlineExtra => INLINE_EXTRA_SLOTS[slot],
        Listed::RegionAttr => REGION_ATTR_SLOTS[slot],
        Listed::InlineModelled => INLINE_MODELLED_SLOTS[slot],
        Listed::Imsc1Extension => IMSC1_EXTENSION_SLOTS[slot],
    }
}

// The number of the entry that the name is, letters in any case. A name that is not listed is compared with
// one entry at most, and no table of names is made for one whose slot is empty.
#[inline(never)]
#[tactic(auto, using(crate::proofs::Slots::slot_says))]
fn number_in_slot(list: Listed, name: &[u8]) -> Option<usize>
    ensures { result ≡ name_number list name.now }
{
    let i = in_slot(list, slot(name)).checked_sub(b'#')? as usize;
    is_name(list, i, name).then_some(i)
}

// Does a listed name begin with this letter, counted from `@` or from a backquote?
#[tactic(auto, unfolding(crate::specs::Steps::is_initial))]
fn is_initial(letter: u8) -> bool
    ensures { result ≡ is_initial letter }
{
    matches!(letter, 20 | 9 | 19 | 1 | 16)
}

// Does a listed name begin as this one does?
#[tactic(auto, unfolding(crate::specs::Steps::can_begin))]
fn can_begin(name: &[u8]) -> bool
    ensures { result ≡ can_begin name.now }
{
    name.first().is_some_and(|first| is_initial(first % 32))
}

// The number of the entry that the name is, letters in any case. The first letter tells most names that are not listed;
// inline, since that test is all that most attributes of a film come to.
#[inline(always)]
#[tactic(auto, using(crate::proofs::Slots::initial_none))]
pub fn number_of(list: Listed, name: &[u8]) -> Option<usize>
    ensures { result ≡ name_number list name.now }
{
    if can_begin(name) {
        number_in_slot(list, name)
    } else {
        None
    }
}

// Is the name listed, byte for byte? No two names differ only in the case of letters.
// A `match`: a closure for `is_some_and` would have to require that the number is one of the list's.
pub fn contains(list: Listed, name: &[u8]) -> bool
    ensures { result ≡ contains_name list name.now }
{
    match number_of(list, name) {
        Some(i) => is_exactly(list, i, name),
        None => false,
    }
}

// The list's i-th name written at a place, if it fits.
pub fn append_name(list: Listed, i: usize, out: &mut [u8], at: usize) -> Option<usize>
    requires { (i < length (names list)) × (at ≤ length out.old) }
    ensures { Wrote (name_of list i) at out.old out.new result }
{
    let entry = name_at(list, i);
    scan::append(out, at, entry.as_bytes())
}
