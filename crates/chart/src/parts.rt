// How exposed the line between two servers is, in rising order.
#[derive(Clone, Copy, PartialEq, Eq, PartialOrd, Ord)]
pub enum Grade {
    Quay,
    Leased,
    Public,
}

// A column: the relation that it belongs to, and how many bytes wide it is.
#[derive(Clone, Copy)]
pub struct Attribute {
    pub relation: u16,
    pub width: u16,
}

// An equality of two attributes of different relations, by their numbers.
#[derive(Clone, Copy)]
pub struct Link {
    pub left: u16,
    pub right: u16,
}
