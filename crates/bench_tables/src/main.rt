// Times the checks on tables of the largest size, plain ones and ones whose long runs overlap. What was found goes to standard
// output, the times to standard error.
#![tactic(auto)]

use arena::{Entry, Handle, Run, Span};
use ir::{Body, Record, Size, Sizes, Source, check_body, check_source};
use kinds::{Expression, Statement};
use refusals::Refusal;
use rounding::Literal;
use std::alloc::{AllocError, Global};
use std::iter;
use std::time::{Duration, Instant};

const ENTRIES: u32 = 65536;

const HALF: u32 = ENTRIES / 2;

const OPERANDS: u32 = 262144;

fn entry(kind: u8, words: [u32; 4], at: u32, len: u32) -> Entry {
    Entry {
        kind,
        words,
        run: Run { at, len },
        span: Span { start: 0, end: 0 },
    }
}

fn one() -> Entry {
    let [type_number, low, high] = Literal::I32(1).words();
    entry(Expression::Literal as u8, [type_number, low, high, 0], 0, 0)
}

// An expression over a run of operands.
fn over(kind: Expression, at: u32, len: u32) -> Entry {
    entry(kind as u8, [0; 4], at, len)
}

// A record with a run of operands.
fn record(kind: Statement, at: u32, len: u32) -> Record {
    entry(kind as u8, [0; 4], at, len)
}

// Four operands to each expression, one after the other.
fn tiled(i: u32) -> Entry {
    over(Expression::Math, i.saturating_sub(1).saturating_mul(4), 4)
}

// All operands to each.
fn overlapping(_i: u32) -> Entry {
    over(Expression::Compose, 0, OPERANDS)
}

// One operand to each of the first half, and to the others all from theirs on.
fn fanned(i: u32) -> Entry {
    if i < HALF {
        over(Expression::Splat, i, 1)
    } else {
        over(Expression::Compose, i.saturating_sub(HALF), HALF)
    }
}

// A literal, and the expressions that are laid out so.
fn entries<F: Fn(u32) -> Entry>(heap: Global, laid_out: F) -> Result<Vec<Entry>, AllocError>
    requires { F.IsAlwaysCallable laid_out }
{
    iter::once(one())
        .chain((1..ENTRIES).map(|i| laid_out(i)))
        .collect(heap)
}

fn operands(heap: Global) -> Result<Vec<Handle>, AllocError> {
    vec![in heap; 0; OPERANDS as usize]
}

fn source(heap: Global, entries: Vec<Entry>) -> Result<Source, AllocError> {
    Ok(Source {
        entries,
        operands: operands(heap)?,
        constants: Vec::new(heap),
        overrides: Vec::new(heap),
        names: Vec::new(heap),
        variables: Vec::new(heap),
    })
}

// One block of Calls, each with four operands.
fn records(heap: Global) -> Result<Vec<Record>, AllocError> {
    iter::once(record(Statement::Open, 0, 0))
        .chain((2..ENTRIES).map(|i| record(Statement::Call, i.saturating_mul(4), 4)))
        .chain(iter::once(record(Statement::Close, 0, 0)))
        .collect(heap)
}

fn body(heap: Global, entries: Vec<Entry>) -> Result<Body, AllocError> {
    Ok(Body {
        entries,
        operands: operands(heap)?,
        records: records(heap)?,
        record_operands: operands(heap)?,
        locals: Vec::new(heap),
        named: Vec::new(heap),
    })
}

fn sizes() -> Sizes {
    let size = Size {
        value: 1,
        handle: None,
    };
    Sizes {
        workgroup: [size; 3],
        vertices: size,
        primitives: size,
    }
}

fn print(
    rt: &HostRuntime,
    name: &str,
    what: &str,
    answer: Result<(), Refusal>,
    time: Duration,
) -> anyhow::Result<()> {
    match answer {
        Ok(()) => println!(rt; "{name} {what}: well formed")?,
        Err(refusal) => println!(rt; "{name} {what}: {refusal}")?,
    }
    eprintln!(rt; "{name} {what}: {time:?}")?;
    Ok(())
}

// Times the checks of a module and of a body whose expressions are laid out so.
fn time<F: Fn(u32) -> Entry + Copy>(rt: &HostRuntime, name: &str, laid_out: F) -> anyhow::Result<()>
    requires { F.IsAlwaysCallable laid_out }
{
    let heap = rt.alloc();
    let source = source(heap, entries(heap, laid_out)?)?;
    let body = body(heap, entries(heap, laid_out)?)?;
    let start = Instant::now(rt)?;
    let answer = check_source(&source, &sizes());
    print(rt, name, "module", answer, start.elapsed(rt)?)?;
    let start = Instant::now(rt)?;
    let answer = check_body(&body, &source);
    print(rt, name, "body", answer, start.elapsed(rt)?)
}

fn main(rt: HostRuntime) -> anyhow::Result<()> {
    time(&rt, "tiled", tiled)?;
    time(&rt, "overlapping", overlapping)?;
    time(&rt, "fanned", fanned)
}
