// The tables of a module before settling, and of a body. They are plain public data: anything can stand in them, and every call
// that takes them checks them first.
use arena::{Entry, Handle, Run};
use rounding::Scalar;

// A record of a body has the parts of an entry, over an operand list of its own.
pub type Record = Entry;

// A constant, with the global expression that it begins as.
#[derive(Clone, Copy, PartialEq, Eq, Debug)]
pub struct Constant {
    pub init: Handle,
}

// A constant that a settings file may give a value to, by its id or else by its name, which is a run of the module's name bytes.
// The init may be absent.
#[derive(Clone, Copy, PartialEq, Eq, Debug)]
pub struct Override {
    pub id: Option<u16>,
    pub name: Option<Run>,
    pub scalar: Scalar,
    pub init: Option<Handle>,
}

// A size, and the global expression that gives it in settling; without one the size stays.
#[derive(Clone, Copy, PartialEq, Eq, Debug)]
pub struct Size {
    pub value: u32,
    pub handle: Option<Handle>,
}

// The sizes of a workgroup, and the largest output of a mesh.
#[derive(Clone, Copy, PartialEq, Eq, Debug)]
pub struct Sizes {
    pub workgroup: [Size; 3],
    pub vertices: Size,
    pub primitives: Size,
}

// A module's tables. Variable inits may be absent.
#[derive(PartialEq, Eq, Debug, Drop)]
pub struct Source {
    pub entries: Vec<Entry>,
    pub operands: Vec<Handle>,
    pub constants: Vec<Constant>,
    pub overrides: Vec<Override>,
    pub names: Vec<u8>,
    pub variables: Vec<Option<Handle>>,
}

// A function's body. Local inits may be absent, named handles may not.
#[derive(PartialEq, Eq, Debug, Drop)]
pub struct Body {
    pub entries: Vec<Entry>,
    pub operands: Vec<Handle>,
    pub records: Vec<Record>,
    pub record_operands: Vec<Handle>,
    pub locals: Vec<Option<Handle>>,
    pub named: Vec<Handle>,
}
