use sets::SmallSet;

// A node of a query tree. Nodes are numbered from 0 in the order of their list, and operands are given by number.
#[derive(Clone, Copy)]
pub enum Node {
    // a relation, as it lies at its server
    Leaf { relation: u16 },
    // the operand, with these attributes alone shown
    Project { operand: u16, attributes: SmallSet },
    // the rows of the operand that pass a test on these attributes
    Filter { operand: u16, attributes: SmallSet },
    // the rows of both operands that match over a link
    Join { left: u16, right: u16, link: u16 },
}
