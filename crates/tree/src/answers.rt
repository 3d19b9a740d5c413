// What the readers answer. A place is an index of the text.
ghost use Rattle.std.specs.Prelude.{◌≡◌};

// Why a text is turned away: a number of document 01, and a place.
#[derive(Clone, Copy)]
pub struct Refusal {
    pub number: u32,
    pub place: usize,
}

impl Refusal {
    pub(crate) fn new(number: u32, place: usize) -> Refusal
        ensures { result ≡ record { number = number; place = place } }
    {
        Refusal { number, place }
    }
}

// How many nodes and attributes a tree has.
#[derive(Clone, Copy)]
pub struct TreeSize {
    pub nodes: usize,
    pub attrs: usize,
}

// Where reading goes on, and how many nodes and attributes there are then.
#[derive(Clone, Copy)]
pub struct Cursor {
    pub pos: usize,
    pub nodes: usize,
    pub attrs: usize,
}

// The same inside a start tag.
#[derive(Clone, Copy)]
pub struct Spot {
    pub pos: usize,
    pub attrs: usize,
}

// A node, with the place after it; or no node, at a place past the comments.
#[derive(Clone, Copy)]
pub enum Step {
    Node(Cursor),
    Nothing(usize),
}

// A start tag: content follows, or none.
#[derive(Clone, Copy)]
pub enum Tag {
    Open(Spot),
    Shut(Spot),
}
