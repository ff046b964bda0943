use crate::{InspectionError, report_listing, rewrite_listing};
use std::test::Fail;

#[test]
fn a_listing_is_reported(rt: HostRuntime) -> Result<(), Fail> {
    let heap = rt.alloc();
    let text =
        "global Literal 4 64\nglobal 99\nsize x 1 0\nsize vertices 3\n\nbody\nrecord Open\nrecord Close\n\nbody\nentry Load : 0\n";
    let report = report_listing(heap, text)?;
    let expected =
        "module: refusal 3, global expression 1: its kind is unknown, the number of its operands is wrong, they lie outside the operand list, or the table is over its limit
  expressions 2: 1 Literal, 1 of kind 99
  operands 0, constants 0, overrides 0, name bytes 0, variables 0
  sizes x 1 by expression 0, vertices 3
body 0: well formed
  expressions 0
  records 2: 1 Open, 1 Close
  operands 0, record operands 0, locals 0, named 0, blocks 1 deep
body 1: refusal 4, body operand 0: it is not below the expression that has it (it stands in body expression 0)
  expressions 1: 1 Load
  records 0
  operands 1, record operands 0, locals 0, named 0, blocks 0 deep
a module and 2 bodies: 2 refused
";
    assert_eq!(rt; report.text.as_str(), expected);
    assert_eq!(rt; report.tally.verdicts, 3);
    assert_eq!(rt; report.tally.refusals, 2);
    Ok(())
}

#[test]
fn a_listing_is_written_again(rt: HostRuntime) -> Result<(), Fail> {
    let heap = rt.alloc();
    let text = rewrite_listing(heap, "# one\nglobal 18 4 1 0 0 :\n")?;
    assert_eq!(rt; text.as_str(), "global Literal 4 1  # 0\n");
    match rewrite_listing(heap, "global Literal\nglobal -\n") {
        Err(InspectionError::Listing(error)) => assert_eq!(rt; error.line, 2),
        _ => return Err(Fail::new("written")),
    }
    Ok(())
}
