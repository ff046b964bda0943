// Why a module, a body, a settling or a specialising is refused: seventeen reasons, each with a number and values.
#![tactic(auto)]

#[cfg(test)]
mod tests;
mod words;

ghost use Rattle.std.specs.Prelude.{◌≡◌};
ghost use Rattle.refusals.specs.Codes.{axis_of, output_of, code_of};

use arena::Handle;
use places::{Place, TableName};
use thiserror::Error;
use words::{Fault, item_word, misshapen_words, range_words};

// A size of a workgroup.
#[derive(Clone, Copy, PartialEq, Eq, Debug)]
pub enum Axis {
    X,
    Y,
    Z,
}

// Each byte has one: any other than 0 and 1 that of 2.
impl From<u8> for Axis {
    ghost from_gives = { λ byte r. r ≡ axis_of byte };

    fn from(byte: u8) -> Axis {
        match byte {
            0 => Axis::X,
            1 => Axis::Y,
            _ => Axis::Z,
        }
    }
}

// What a mesh shader puts out at most so many of.
#[derive(Clone, Copy, PartialEq, Eq, Debug)]
pub enum MeshOutput {
    Vertices,
    Primitives,
}

// Each byte has one: any other than 0 that of 1.
impl From<u8> for MeshOutput {
    ghost from_gives = { λ byte r. r ≡ output_of byte };

    fn from(byte: u8) -> MeshOutput {
        match byte {
            0 => MeshOutput::Vertices,
            _ => MeshOutput::Primitives,
        }
    }
}

// The reasons in the order of their numbers, from 1: one list, with those of settings files and of conversions in it, since which
// comes first is one rule. Names that naga has are naga's. A key is known by its index in the settings
// file, an override by its number, an expression by its handle before settling or specialising. In words, the key, record,
// expression or table comes first, as in the values of the refusal.
#[derive(Clone, Copy, PartialEq, Eq, Debug, Error)]
pub enum Refusal {
    #[error("the settings file is short, long or over its limit")]
    MalformedSettings,
    #[error("key {key} is equal to an earlier key")]
    RepeatedKey {
        key: usize,
    },
    #[error("{} {}: {}", item_word(.place.table), .place.index, misshapen_words(.place.table))]
    Misshapen {
        place: Place,
    },
    #[error("{} {}: {}", item_word(.place.table), .place.index, range_words(.place.table))]
    OutOfRange {
        place: Place,
    },
    #[error("record {record}: here the records cease to be one block at most 64 deep")]
    NotOneBlock {
        record: usize,
    },
    #[error("no override takes key {key}")]
    NotFound {
        key: usize,
    },
    #[error("override {number}: it has neither id nor name")]
    Nameless {
        number: usize,
    },
    #[error("override {number}: it has no value and no init")]
    MissingValue {
        number: usize,
    },
    #[error("override {number}: the value is not finite")]
    SrcNeedsToBeFinite {
        number: usize,
    },
    #[error("override {number}: the value does not fit the type")]
    DstRangeTooSmall {
        number: usize,
    },
    #[error("override {number}: no literal has this scalar type")]
    UnsupportedScalar {
        number: usize,
    },
    #[error("override {number}: its init has no image yet where it is settled")]
    InitNotMapped {
        number: usize,
    },
    // The code is the evaluator's own number of a fault, from 1 to 255, or 0 where it made no constant: its faults are not told apart
    // here.
    #[error("expression {handle}: {}", Fault {layer: *.layer, code: *.code})]
    ConstantEvaluatorError {
        handle: Handle,
        layer: u32,
        code: u8,
    },
    #[error("expression {handle}: it cannot be worked out before the run")]
    RuntimeExpr {
        handle: Handle,
    },
    #[error("the workgroup size {axis} is no u32 or i32 above zero")]
    NegativeWorkgroupSize {
        axis: Axis,
    },
    #[error("the largest number of mesh {which} is no u32, nor an i32 from zero")]
    NegativeMeshOutputMax {
        which: MeshOutput,
    },
    #[error("no room for one more {}", item_word(*.table))]
    Full {
        table: TableName,
    },
}

impl Refusal {
    // Its number. An arm each: `as` takes no enum whose variants hold something.
    pub fn code(&self) -> u8
        ensures { result ≡ (code_of self.now).0 }
    {
        match self {
            Refusal::MalformedSettings => 1,
            Refusal::RepeatedKey { .. } => 2,
            Refusal::Misshapen { .. } => 3,
            Refusal::OutOfRange { .. } => 4,
            Refusal::NotOneBlock { .. } => 5,
            Refusal::NotFound { .. } => 6,
            Refusal::Nameless { .. } => 7,
            Refusal::MissingValue { .. } => 8,
            Refusal::SrcNeedsToBeFinite { .. } => 9,
            Refusal::DstRangeTooSmall { .. } => 10,
            Refusal::UnsupportedScalar { .. } => 11,
            Refusal::InitNotMapped { .. } => 12,
            Refusal::ConstantEvaluatorError { .. } => 13,
            Refusal::RuntimeExpr { .. } => 14,
            Refusal::NegativeWorkgroupSize { .. } => 15,
            Refusal::NegativeMeshOutputMax { .. } => 16,
            Refusal::Full { .. } => 17,
        }
    }
}
