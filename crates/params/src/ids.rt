// The id of an element, and the language of tt.
ghost use Rattle.std.specs.Prelude.{◌≡◌};
ghost use Rattle.meaning.specs.Nodes.{id_of};
ghost use Rattle.meaning.specs.Kinds.{with_places};
ghost use Rattle.meaning.specs.Meaning.{lang_of};
ghost use Rattle.styling.specs.Posts.{Of, FoundFits};
ghost use Rattle.params.specs.Named.{found_in};

use crate::seek::Sought;
use xml::{Attribute, Attributes};

// `xml:id`, or else `id`. (`or_else` was tried, and its proof did not close.)
pub fn id_of(attrs: &Attributes<'_>) -> Option<Attribute>
    ensures found_fits { FoundFits attrs.now.strings.now result }
    ensures of_rows { Of attrs.now (λ l. found_in attrs.now.strings.now result ≡ id_of with_places l) }
{
    match styling::find(attrs, b"xml:id") {
        Some(h) => Some(h),
        None => styling::find(attrs, b"id"),
    }
}

// `xml:lang`, byte for byte.
pub fn lang_of(attrs: &Attributes<'_>) -> Option<Attribute>
    ensures found_fits { FoundFits attrs.now.strings.now result }
    ensures of_rows { Of attrs.now (λ l. found_in attrs.now.strings.now result ≡ lang_of with_places l) }
{
    crate::seek::seek(attrs, Sought::Whole, b"xml:lang")
}
