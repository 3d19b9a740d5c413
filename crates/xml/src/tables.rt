// A tree in its tables (docs/TABLES.md).
ghost use Rattle.xml.specs.Find.{HasRows, InRows};

use crate::attributes::Attributes;
use crate::find::Element;

#[derive(Clone, Copy)]
pub struct Tree<'a> {
    pub nodes: &'a [u32],
    pub attrs: &'a [u32],
    pub strings: &'a [u8],
}

impl<'a> Tree<'a> {
    // The attributes of one of its elements.
    pub fn attributes(&self, e: Element) -> Attributes<'a>
        requires { HasRows self.now.attrs.now self.now.strings.now e.first e.many }
        ensures { InRows result self.now.attrs.now self.now.strings.now e.first e.many }
    {
        Attributes {
            attrs: self.attrs,
            strings: self.strings,
            first: e.first,
            many: e.many,
        }
    }
}
