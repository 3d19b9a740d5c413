// Attributes that are kept as they were, in rows of number, place and length. Each attribute's name is looked up once.
ghost use Rattle.std.specs.Prelude.{◌≡◌, List, ℕ, ◌+◌, ◌*◌, ◌≤◌, ◌<◌, ◌^◌, length, get_or};
ghost use Rattle.std.proofs.lemmas.List.Edits.{sets};
ghost use Rattle.names.specs.Lists.{names, name_of, style_extra, region_attr};
ghost use Rattle.names.specs.Numbers.{name_number};
ghost use Rattle.xml.specs.Reading.{Placed};
ghost use Rattle.meaning.specs.Nodes.{Attr};
ghost use Rattle.meaning.specs.Kinds.{with_places};
ghost use Rattle.meaning.specs.Styling.{extra_of_style, every_extra, extras_from, inline_extras};
ghost use Rattle.styling.specs.Posts.{Of, NameFits, name_at, FoundFits};
ghost use Rattle.extras.specs.Kept.{wanted_by, extras_of, kept_in, kept_cells, kept_count, RoomFor, Collected, rows_from, Lists};
ghost use Rattle.extras.specs.Kept.{RowFits, RowsFit, FirstRows, with_note, NumberFits, NumberBelow, past_number, NoneFrom, entry_extra};

use names::Listed;
use track::{Extra, Rows, Span};
use xml::{Attribute, Attributes};

// The number of `tts:textAlign` among the extras of a style.
const TEXT_ALIGN: usize = 33;

// Does a style keep its i-th name with this value? Of alignments only `justify`.
fn style_keeps(i: usize, value: &[u8]) -> bool
    requires { i < length (names Listed.StyleExtra) }
    ensures { result ≡ extra_of_style (name_of Listed.StyleExtra i) value.now }
{
    i != TEXT_ALIGN || styling::is_trimmed(value, b"justify")
}

// Is the list's i-th name kept with this value?
fn is_kept(list: Listed, i: usize, value: &[u8]) -> bool
    requires { i < length (names list) }
    ensures { result ≡ wanted_by list (name_of list i) value.now }
{
    match list {
        Listed::StyleExtra => style_keeps(i, value),
        Listed::InlineExtra
        | Listed::RegionAttr
        | Listed::InlineModelled
        | Listed::Imsc1Extension => true,
    }
}

// The number of attribute k in the list.
fn number_at(attrs: &Attributes<'_>, k: usize, list: Listed) -> Option<usize>
    requires { NameFits attrs.now.attrs.now attrs.now.strings.now k }
    ensures { result ≡ name_number list (name_at attrs.now.attrs.now attrs.now.strings.now k) }
{
    names::number_of(list, attrs.name(k))
}

// The entry of a number, unless it has one.
fn note(rows: &mut [usize], number: Option<usize>, entry: usize)
    requires { NumberFits rows.old number }
    ensures { rows.new ≡ with_note rows.old number entry }
{
    if let Some(i) = number {
        if rows[i] == 0 {
            rows[i] = entry;
        }
    }
}

// The end of numbers, where it was `end` before this one.
fn past(number: Option<usize>, end: usize) -> usize
    requires { NumberBelow 53 number }
    ensures { result ≡ past_number number end }
{
    match number {
        Some(i) => end.max(i + 1),
        None => end,
    }
}

// The first attribute of each name, by the name's number; and where the numbers end that have one.
fn first_rows(attrs: &Attributes<'_>, list: Listed, rows: &mut [usize]) -> usize
    requires { (length (names list) ≤ length rows.old) × ((i : ℕ) → get_or rows.old i 0 ≡ 0) }
    ensures none_from { NoneFrom list result rows.new }
    ensures rows_fit { RowsFit attrs.now.attrs.now attrs.now.strings.now rows.new }
    ensures of_rows { Of attrs.now (λ l. FirstRows attrs.now.attrs.now attrs.now.strings.now list rows.new l) }
{
    let end = attrs.first + attrs.many;
    let mut last = 0;
    for k in attrs.first..end {
        let number = number_at(attrs, k, list);
        last = past(number, last);
        note(rows, number, k + 1);
    }
    last
}

// The attribute that an entry says, if the list's i-th name is kept with its value.
fn kept_attr(attrs: &Attributes<'_>, list: Listed, i: usize, entry: usize) -> Option<Attribute>
    requires { (i < length (names list)) × RowFits attrs.now.attrs.now attrs.now.strings.now entry }
    ensures found_fits { FoundFits attrs.now.strings.now result }
    ensures value { entry_extra attrs.now.attrs.now attrs.now.strings.now list i entry ≡ kept_in attrs.now.strings.now i result }
{
    if entry == 0 {
        return None;
    }
    let h = xml::attr_at(attrs.attrs, entry - 1);
    is_kept(list, i, &attrs.strings[h.place..h.place + h.len]).then_some(h)
}

// It in row k, if there is one; how many rows that makes.
fn keep(found: Option<Attribute>, i: usize, extras: &mut [u32], k: usize) -> usize
    requires { RoomFor extras.old k i found }
    ensures value { result ≡ kept_count found }
    ensures extras_after { extras.new ≡ sets extras.old (k * 3) (kept_cells i found) }
{
    match found {
        Some(h) => {
            let value = Span {
                place: h.place,
                len: h.len,
            };
            records::put_extra(extras, k, Extra { number: i, value });
            1
        }
        None => 0,
    }
}

// What the entries say in the order of numbers, from row `at` on; how many rows that makes. From number `end` on there are none.
fn keep_all(
    attrs: &Attributes<'_>,
    list: Listed,
    rows: &[usize],
    extras: &mut [u32],
    at: usize,
    end: usize,
) -> usize
    requires { RowsFit attrs.now.attrs.now attrs.now.strings.now rows.now × (length (names list) ≤ length rows.now)
        × NoneFrom list end rows.now × (length attrs.now.strings.now < 2 ^ 32)
        × ((l : List (Attr Placed)) × FirstRows attrs.now.attrs.now attrs.now.strings.now list rows.now l
        × ((at + length (extras_of list l)) * 3 ≤ length extras.old)) }
    ensures { (l : List (Attr Placed)) → FirstRows attrs.now.attrs.now attrs.now.strings.now list rows.now l
        → Collected (extras_of list l) at extras.old extras.new result }
{
    let mut n = 0;
    for i in 0..end {
        let found = kept_attr(attrs, list, i, rows[i]);
        n += keep(found, i, extras, at + n);
    }
    n
}

fn rows_from(at: usize, n: usize) -> Rows
    ensures { result ≡ rows_from at n }
{
    let first = if n == 0 { 0 } else { at };
    Rows { first, count: n }
}

// The extras of a list, from row `at` on: there are no more of them than attributes.
fn collect(attrs: &Attributes<'_>, list: Listed, extras: &mut [u32], at: usize) -> Rows
    requires { ((at + attrs.now.many) * 3 ≤ length extras.old) × (length attrs.now.strings.now < 2 ^ 32) }
    ensures count_le_many { result.count ≤ attrs.now.many }
    ensures of_rows { Of attrs.now (λ l. Lists (extras_of list l) at extras.old extras.new result) }
{
    let mut rows = [0usize; 53];
    let end = first_rows(attrs, list, &mut rows);
    let n = keep_all(attrs, list, &rows, extras, at, end);
    rows_from(at, n)
}

// Those of a style: its alignment only where it is `justify`.
pub fn collect_style_extras(attrs: &Attributes<'_>, extras: &mut [u32], at: usize) -> Rows
    requires { ((at + attrs.now.many) * 3 ≤ length extras.old) × (length attrs.now.strings.now < 2 ^ 32) }
    ensures count_le_many { result.count ≤ attrs.now.many }
    ensures of_rows { Of attrs.now (λ l. Lists (extras_from with_places extra_of_style 0 style_extra l) at extras.old extras.new result) }
{
    collect(attrs, Listed::StyleExtra, extras, at)
}

// Those of a region.
pub fn collect_region_attrs(attrs: &Attributes<'_>, extras: &mut [u32], at: usize) -> Rows
    requires { ((at + attrs.now.many) * 3 ≤ length extras.old) × (length attrs.now.strings.now < 2 ^ 32) }
    ensures count_le_many { result.count ≤ attrs.now.many }
    ensures of_rows { Of attrs.now (λ l. Lists (extras_from with_places every_extra 0 region_attr l) at extras.old extras.new result) }
{
    collect(attrs, Listed::RegionAttr, extras, at)
}

// Those of a p.
pub fn collect_p_inline_extras(attrs: &Attributes<'_>, extras: &mut [u32], at: usize) -> Rows
    requires { ((at + attrs.now.many) * 3 ≤ length extras.old) × (length attrs.now.strings.now < 2 ^ 32) }
    ensures count_le_many { result.count ≤ attrs.now.many }
    ensures of_rows { Of attrs.now (λ l. Lists (inline_extras with_places l) at extras.old extras.new result) }
{
    collect(attrs, Listed::InlineExtra, extras, at)
}
