// Refusals by their numbers and values.
use arena::Handle;
use places::{Place, TableName};
use refusals::{Axis, MeshOutput, Refusal};

fn table_numbered(number: u32) -> Option<TableName> {
    match number {
        0 => Some(TableName::GlobalEntries),
        1 => Some(TableName::GlobalOperands),
        2 => Some(TableName::Constants),
        3 => Some(TableName::Overrides),
        4 => Some(TableName::VariableInits),
        5 => Some(TableName::BodyEntries),
        6 => Some(TableName::BodyOperands),
        7 => Some(TableName::Records),
        8 => Some(TableName::RecordOperands),
        9 => Some(TableName::LocalInits),
        10 => Some(TableName::NamedHandles),
        11 => Some(TableName::Sizes),
        12 => Some(TableName::HandleTable),
        13 => Some(TableName::OverridesConstants),
        14 => Some(TableName::Kinds),
        _ => None,
    }
}

fn axis_numbered(number: u32) -> Option<Axis> {
    match number {
        0 => Some(Axis::X),
        1 => Some(Axis::Y),
        2 => Some(Axis::Z),
        _ => None,
    }
}

fn output_numbered(number: u32) -> Option<MeshOutput> {
    match number {
        0 => Some(MeshOutput::Vertices),
        1 => Some(MeshOutput::Primitives),
        _ => None,
    }
}

fn place(table: u32, index: u32) -> Option<Place> {
    Some(Place {
        table: table_numbered(table)?,
        index: index as usize,
    })
}

fn evaluator_error(handle: Handle, layer: u32, code: u32) -> Option<Refusal> {
    Some(Refusal::ConstantEvaluatorError {
        handle,
        layer,
        code: u8::try_from(code).ok()?,
    })
}

// The refusals of an override's value, by the override's number.
fn of_override(code: u32, number: usize) -> Option<Refusal> {
    match code {
        7 => Some(Refusal::Nameless { number }),
        8 => Some(Refusal::MissingValue { number }),
        9 => Some(Refusal::SrcNeedsToBeFinite { number }),
        10 => Some(Refusal::DstRangeTooSmall { number }),
        11 => Some(Refusal::UnsupportedScalar { number }),
        12 => Some(Refusal::InitNotMapped { number }),
        _ => None,
    }
}

// The refusal that has one value.
fn with_one(code: u32, value: u32) -> Option<Refusal> {
    let index = value as usize;
    match code {
        2 => Some(Refusal::RepeatedKey { key: index }),
        5 => Some(Refusal::NotOneBlock { record: index }),
        6 => Some(Refusal::NotFound { key: index }),
        14 => Some(Refusal::RuntimeExpr { handle: value }),
        15 => Some(Refusal::NegativeWorkgroupSize {
            axis: axis_numbered(value)?,
        }),
        16 => Some(Refusal::NegativeMeshOutputMax {
            which: output_numbered(value)?,
        }),
        17 => Some(Refusal::Full {
            table: table_numbered(value)?,
        }),
        _ => of_override(code, index),
    }
}

// The refusal of this number with these values.
pub(crate) fn refusal_of(numbers: &[u32]) -> Option<Refusal> {
    match numbers {
        [1] => Some(Refusal::MalformedSettings),
        [3, table, index] => Some(Refusal::Misshapen {
            place: place(*table, *index)?,
        }),
        [4, table, index] => Some(Refusal::OutOfRange {
            place: place(*table, *index)?,
        }),
        [13, handle, layer, code] => evaluator_error(*handle, *layer, *code),
        [code, value] => with_one(*code, *value),
        _ => None,
    }
}
