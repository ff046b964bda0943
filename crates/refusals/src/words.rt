// Tables, axes, outputs and faults in words.
ghost use Rattle.std.specs.Prelude.{Some};
ghost use Rattle.refusals.specs.Codes.{axis_word, output_word};

use crate::{Axis, MeshOutput};
use places::TableName;
use std::fmt;

// What one item of a table is called.
pub(crate) fn item_word(table: TableName) -> &'static str {
    match table {
        TableName::GlobalEntries => "global expression",
        TableName::GlobalOperands => "global operand",
        TableName::Constants => "constant",
        TableName::Overrides => "override",
        TableName::VariableInits => "variable init",
        TableName::BodyEntries => "body expression",
        TableName::BodyOperands => "body operand",
        TableName::Records => "record",
        TableName::RecordOperands => "record operand",
        TableName::LocalInits => "local init",
        TableName::NamedHandles => "named handle",
        TableName::Sizes => "size",
        TableName::HandleTable => "image of a handle",
        TableName::OverridesConstants => "constant of an override",
        TableName::Kinds => "kind of an expression",
    }
}

// What is wrong with an item of a table that has a wrong shape.
pub(crate) fn misshapen_words(table: TableName) -> &'static str {
    match table {
        TableName::GlobalOperands | TableName::BodyOperands | TableName::RecordOperands =>
            "it is absent where an operand is needed, or the list is over its limit",
        TableName::Overrides =>
            "its name lies outside the name bytes, or the table is over its limit",
        TableName::Constants => "the table is over its limit",
        _ =>
            "its kind is unknown, the number of its operands is wrong, they lie outside the operand list, or the table is over its limit",
    }
}

// What is wrong with an item of a table that points out of range.
pub(crate) fn range_words(table: TableName) -> &'static str {
    match table {
        TableName::GlobalEntries =>
            "it names a constant or an override that is not there or a constant whose init is not below it, or is a malformed literal",
        TableName::BodyEntries =>
            "it names a constant or an override that is not there, or is a malformed literal",
        TableName::GlobalOperands | TableName::BodyOperands =>
            "it is not below the expression that has it",
        TableName::Records => "it emits expressions that are not there",
        _ => "there is no such expression",
    }
}

impl fmt::Display for Axis {
    ghost output = { λ a. Some (axis_word a) };

    fn fmt<W: fmt::Write>(&self, f: &mut fmt::Formatter<W>) -> fmt::Result {
        f.write_str(match self {
            Axis::X => "x",
            Axis::Y => "y",
            Axis::Z => "z",
        })
    }
}

impl fmt::Display for MeshOutput {
    ghost output = { λ o. Some (output_word o) };

    fn fmt<W: fmt::Write>(&self, f: &mut fmt::Formatter<W>) -> fmt::Result {
        f.write_str(match self {
            MeshOutput::Vertices => "vertices",
            MeshOutput::Primitives => "primitives",
        })
    }
}

// What the evaluator found.
#[derive(Clone, Copy)]
pub(crate) struct Fault {
    pub(crate) layer: u32,
    pub(crate) code: u8,
}

impl fmt::Display for Fault {
    fn fmt<W: fmt::Write>(&self, f: &mut fmt::Formatter<W>) -> fmt::Result {
        let Fault { layer, code } = *self;
        if code == 0 {
            f.write_str("no constant was made of it")
        } else {
            write!(f, "layer {layer} of the evaluator found fault {code}")
        }
    }
}
