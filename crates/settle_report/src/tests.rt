use crate::*;
use evaluator::NewConstant;
use ir::{Size, Sizes};
use pipeline_constants::Written;
use places::{Place, TableName};
use refusals::Refusal;
use settings::Settings;
use shader_text::{Shader, read_shader};
use std::alloc::Global;
use std::test::Fail;

// Two overrides, the second one switch less than the first.
const MODULE: &str = "override - switches u32 -
override - far u32 init 2
global Override 0
global Literal 4 1
global Binary 1 : 0 1
global Override 1
size x 1 3
";

// One setting, `switches = 12`.
const FILE: &[u8] = b"\x01\x00\x08switches\x00\x00\x00\x00\x00\x00\x28\x40";

// What the module becomes by this file, worked out by hand.
const FINISHED: &str = "global Literal 4 12  # 0
global Constant  # 1
global Literal 4 1  # 2
global Literal 4 11  # 3
global Constant 1  # 4
constant 0  # 0
constant 3  # 1
override - switches u32 init 0  # 0
override - far u32 init 3  # 1
size x 11
";

const TOLD: &str = "
# images from 0 on: 1 2 3 4
# override 0, name switches, u32: key 0 `switches` = 12, literal u32 12, bits 0x0000000c; constant 0, expression 0 Literal 4 12
# override 1, name far, u32: no value, init 2; constant 1, expression 3 Literal 4 11
# size x 11 by expression 3, which became 4 Constant 1
# 4 expressions before, 5 after: 1 literal added for values, 1 of another kind than before, 0 with the image of an earlier one
";

const CONSTANTS: [NewConstant; 2] = [
    NewConstant {
        init: 0,
        mapped: true,
    },
    NewConstant {
        init: 3,
        mapped: true,
    },
];

// The tables of a listing as finished ones.
fn finished<'t>(shader: &'t Shader, images: &'t [u32], settled: &'t [u32]) -> FinishedTables<'t> {
    FinishedTables {
        entries: &shader.source.entries,
        operands: &shader.source.operands,
        constants: &CONSTANTS,
        overrides: &shader.source.overrides,
        variables: &shader.source.variables,
        images,
        settled,
    }
}

#[test]
fn a_settling_is_reported(rt: HostRuntime) -> Result<(), Fail> {
    let heap = rt.alloc();
    let module = read_shader(heap, MODULE)?;
    let result = read_shader(heap, FINISHED)?;
    let settings = Settings::read(FILE)?;
    let said = report_settled(
        heap,
        Settling {
            source: &module.source,
            before: &module.sizes,
            settings: &settings,
            tables: finished(&result, &[1, 2, 3, 4], &[0, 1]),
            after: &result.sizes,
        },
    )?;
    let expected = format!(in heap; "{FINISHED}{TOLD}")?;
    assert_eq!(rt; said.as_str(), expected.as_str());
    let again = read_shader(heap, said.as_str())?;
    assert!(rt; again == result);
    Ok(())
}

#[test]
fn a_size_is_listed_by_its_value(rt: HostRuntime) -> Result<(), Fail> {
    let heap = rt.alloc();
    let result = read_shader(heap, FINISHED)?;
    let size = Size {
        value: 7,
        handle: Some(3),
    };
    let sizes = Sizes {
        workgroup: [size, size, size],
        vertices: size,
        primitives: size,
    };
    let tables = finished(&result, &[], &[]);
    let said = write_finished(heap, tables, &result.source.names, &sizes)?;
    let sizes = "size x 7\nsize y 7\nsize z 7\nsize vertices 7\nsize primitives 7\n";
    assert!(rt; said.as_str().ends_with(sizes));
    Ok(())
}

// What is told of the module by tables that are not those of its settling: two handles share an image, two have none, one override
// is not settled.
#[test]
fn other_tables_are_told_of(rt: HostRuntime) -> Result<(), Fail> {
    let heap = rt.alloc();
    let module = read_shader(heap, MODULE)?;
    let result = read_shader(heap, FINISHED)?;
    let settings = Settings::read(b"\x00\x00")?;
    let said = report_settled(
        heap,
        Settling {
            source: &module.source,
            before: &module.sizes,
            settings: &settings,
            tables: finished(&result, &[1, 1, 9], &[7]),
            after: &module.sizes,
        },
    )?;
    let told = "
# images from 0 on: 1 1 9
# override 0, name switches, u32: refusal 8, a value is missing; constant 7
# override 1, name far, u32: no value, init 2; not settled
# size x 1 by expression 3
# 4 expressions before, 5 after: 0 literals added for values, 1 of another kind than before, 1 with the image of an earlier one
";
    assert!(rt; said.as_str().ends_with(told));
    Ok(())
}

// What is said of the module's refusal by the file.
fn refused(heap: Global, refusal: Refusal, written: Written) -> Result<String, Fail> {
    let module = read_shader(heap, MODULE)?;
    Ok(report_refused(heap, &module.source, FILE, refusal, written)?)
}

const NOTHING: Written = Written {
    entries: 0,
    operands: 0,
    kinds: 0,
    constants: 0,
    overrides: 0,
    variables: 0,
    images: 0,
    settled: 0,
};

#[test]
fn refusals_of_checks_are_reported(rt: HostRuntime) -> Result<(), Fail> {
    let heap = rt.alloc();
    let cases = [
        (
            Refusal::NotFound { key: 0 },
            "refusal 6, no override takes key 0 (key 0 `switches` = 12)\nnothing is written\n",
        ),
        (
            Refusal::OutOfRange {
                place: Place {
                    table: TableName::GlobalOperands,
                    index: 1,
                },
            },
            "refusal 4, global operand 1: it is not below the expression that has it (it stands in global expression 2)\nnothing is written\n",
        ),
        (
            Refusal::Nameless { number: 1 },
            "refusal 7, override 1: it has neither id nor name\nnothing is written\n",
        ),
    ];
    for (refusal, expected) in cases {
        let said = refused(heap, refusal, NOTHING)?;
        assert_eq!(rt; said.as_str(), expected);
    }
    Ok(())
}

#[test]
fn refusals_of_walks_are_reported(rt: HostRuntime) -> Result<(), Fail> {
    let heap = rt.alloc();
    let written = Written {
        entries: 3,
        operands: 2,
        kinds: 3,
        constants: 1,
        overrides: 2,
        variables: 0,
        images: 2,
        settled: 1,
    };
    let by_then =
        "written by then: 3 expressions, 2 operands, 3 kinds, 1 constant, 2 overrides (1 settled), 0 variable inits, 2 images";
    let cases = [
        (
            Refusal::MissingValue { number: 0 },
            "refusal 8, override 0: it has no value and no init (name switches, u32)",
        ),
        (
            Refusal::ConstantEvaluatorError {
                handle: 2,
                layer: 0,
                code: 0,
            },
            "refusal 13, expression 2: no constant was made of it (Binary 1)",
        ),
        (
            Refusal::Full {
                table: TableName::Kinds,
            },
            "refusal 17, no room for one more kind of an expression",
        ),
    ];
    for (refusal, first) in cases {
        let said = refused(heap, refusal, written)?;
        let expected = format!(in heap; "{first}\n{by_then}\n")?;
        assert_eq!(rt; said.as_str(), expected.as_str());
    }
    Ok(())
}
