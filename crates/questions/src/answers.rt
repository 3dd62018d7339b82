// What is told of an answered operation.
use operation::Tag;

// Which of the two an operation is.
#[derive(Clone, Copy, Debug, PartialEq, Eq)]
pub enum Kind {
    Write,
    Read,
}

// The tag and the value of the write that the operation is or that the read gave; who asked, and for what.
#[derive(Clone, Copy, Debug, PartialEq, Eq)]
pub struct Answer<V> {
    pub tag: Tag,
    pub client: u8,
    pub kind: Kind,
    pub value: V,
}
