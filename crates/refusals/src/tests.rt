use crate::*;
use std::fmt::InlineText;

// A refusal in words.
fn words(refusal: Refusal) -> InlineText<160> {
    InlineText::of(refusal)
}

// An item of a table.
fn at(table: TableName) -> Place {
    Place { table, index: 7 }
}

#[test]
fn places_in_words(rt: HostRuntime) {
    let place = at(TableName::Records);
    assert!(rt;
        words(Refusal::Misshapen { place }).as_str()
            == "record 7: its kind is unknown, the number of its operands is wrong, they lie outside the operand list, or the table is over its limit"
    );
    let place = at(TableName::BodyOperands);
    assert!(rt;
        words(Refusal::OutOfRange { place }).as_str()
            == "body operand 7: it is not below the expression that has it"
    );
    let table = TableName::HandleTable;
    assert!(rt;
        words(Refusal::Full { table }).as_str() == "no room for one more image of a handle"
    );
}

#[test]
fn overrides_in_words(rt: HostRuntime) {
    assert!(rt;
        words(Refusal::RepeatedKey { key: 3 }).as_str() == "key 3 is equal to an earlier key"
    );
    assert!(rt;
        words(Refusal::InitNotMapped { number: 6 }).as_str()
            == "override 6: its init has no image yet where it is settled"
    );
}

// A refusal by the evaluator.
fn fault(code: u8) -> Refusal {
    Refusal::ConstantEvaluatorError {
        handle: 9,
        layer: 2,
        code,
    }
}

#[test]
fn faults_in_words(rt: HostRuntime) {
    assert!(rt; words(fault(0)).as_str() == "expression 9: no constant was made of it");
    assert!(rt;
        words(fault(255)).as_str() == "expression 9: layer 2 of the evaluator found fault 255"
    );
}

#[test]
fn sizes_in_words(rt: HostRuntime) {
    let axis = Axis::Y;
    assert!(rt;
        words(Refusal::NegativeWorkgroupSize { axis }).as_str()
            == "the workgroup size y is no u32 or i32 above zero"
    );
    let which = MeshOutput::Primitives;
    assert!(rt;
        words(Refusal::NegativeMeshOutputMax { which }).as_str()
            == "the largest number of mesh primitives is no u32, nor an i32 from zero"
    );
}

// A refusal of a workgroup size, and one of a mesh output, whose value is a byte.
fn workgroup(byte: u8) -> InlineText<160> {
    words(Refusal::NegativeWorkgroupSize {
        axis: Axis::from(byte),
    })
}

fn mesh(byte: u8) -> InlineText<160> {
    words(Refusal::NegativeMeshOutputMax {
        which: MeshOutput::from(byte),
    })
}

#[test]
fn bytes_in_words(rt: HostRuntime) {
    assert!(rt; workgroup(0).as_str() == "the workgroup size x is no u32 or i32 above zero");
    assert!(rt; workgroup(1).as_str() == "the workgroup size y is no u32 or i32 above zero");
    for byte in [2, 3, 255] {
        assert!(rt; workgroup(byte).as_str() == "the workgroup size z is no u32 or i32 above zero");
    }
    assert!(rt;
        mesh(0).as_str() == "the largest number of mesh vertices is no u32, nor an i32 from zero"
    );
    for byte in [1, 2, 3, 255] {
        assert!(rt;
            mesh(byte).as_str()
                == "the largest number of mesh primitives is no u32, nor an i32 from zero"
        );
    }
}
