// The scalar type of an override: naga's `Scalar`, without the abstract kinds.

// The kinds are numbered from 0 in this order.
#[derive(Clone, Copy, PartialEq, Eq, Debug)]
pub enum ScalarKind {
    Sint,
    Uint,
    Float,
    Bool,
}

// A kind and a width in bytes. Any width can be written here; the conversion refuses those that
// no literal has.
#[derive(Clone, Copy, PartialEq, Eq, Debug)]
pub struct Scalar {
    pub kind: ScalarKind,
    pub width: u8,
}
