// What stands in a table of expressions or of records: an entry, and where its operands lie.

// The number of an entry, from 0 in the order of its table. Entries refer to one another by it, as in naga's arenas: tables come
// and go as numbers, damaged ones too.
pub type Handle = u32;

// The handle that stands for no handle: a number, since an operand list is raw words.
pub const ABSENT: Handle = Handle::MAX;

// A stretch of an operand list, or of a module's name bytes.
#[derive(Clone, Copy, PartialEq, Eq, Debug)]
pub struct Run {
    pub at: u32,
    pub len: u32,
}

// Where in its source an entry comes from.
#[derive(Clone, Copy, PartialEq, Eq, Debug)]
pub struct Span {
    pub start: u32,
    pub end: u32,
}

// An expression, or a record of a body. Kinds are bytes, so that an unknown one can stand here and be refused.
#[derive(Clone, Copy, PartialEq, Eq, Debug)]
pub struct Entry {
    pub kind: u8,
    pub words: [u32; 4],
    pub run: Run,
    pub span: Span,
}
