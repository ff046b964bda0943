// Times settlings of the largest size: so many expressions that with a literal for each override they become 65,536 entries. What was
// found goes to standard output, the times to standard error.
#![tactic(auto)]

use arena::{Entry, Handle, Run, Span};
use evaluator::Folder;
use ir::{Override, Size, Sizes, Source};
use kinds::Expression;
use layers::{Keep, Whole};
use pipeline_constants::{Module, Refused, Room, Settled};
use rounding::{Scalar, ScalarKind};
use settings::{Setting, write};
use std::alloc::{AllocError, Global};
use std::time::{Duration, Instant};

// Finished entries: each override has a literal and an expression.
const ENTRIES: u32 = 65536;

// As many overrides as a module may have, and as many as a module mostly has.
const MANY: u16 = 4096;

const FEW: u16 = 16;

// Where the settling stands in the program.
type Settling = Result<Settled, Refused>;

fn entry(kind: Expression, word: u32, at: u32, len: u32) -> Entry {
    Entry {
        kind: kind as u8,
        words: [word, 0, 0, 0],
        run: Run { at, len },
        span: Span { start: 0, end: 0 },
    }
}

// An override for each key, and sums: each of the two expressions before it.
fn added(i: u32, overrides: u16) -> Entry {
    if i < u32::from(overrides) {
        entry(Expression::Override, i, 0, 0)
    } else {
        entry(Expression::Binary, 0, i.saturating_sub(2), 2)
    }
}

// An override for each key, and composites of the four expressions before them.
fn composed(i: u32, overrides: u16) -> Entry {
    if i < u32::from(overrides) {
        entry(Expression::Override, i, 0, 0)
    } else {
        entry(Expression::Compose, 0, i.saturating_sub(4), 4)
    }
}

fn entries<F: Fn(u32, u16) -> Entry>(
    heap: Global,
    overrides: u16,
    laid_out: F,
) -> Result<Vec<Entry>, AllocError>
    requires { F.IsAlwaysCallable laid_out }
{
    let count = ENTRIES.saturating_sub(u32::from(overrides));
    (0..count).map(|i| laid_out(i, overrides)).collect(heap)
}

fn operands(heap: Global) -> Result<Vec<Handle>, AllocError> {
    (0..ENTRIES).map(|i| i).collect(heap)
}

fn overrides(heap: Global, count: u16) -> Result<Vec<Override>, AllocError> {
    (0..count)
        .map(|id| Override {
            id: Some(id),
            name: None,
            scalar: Scalar {
                kind: ScalarKind::Sint,
                width: 4,
            },
            init: None,
        })
        .collect(heap)
}

fn source(heap: Global, entries: Vec<Entry>, count: u16) -> Result<Source, AllocError> {
    Ok(Source {
        entries,
        operands: operands(heap)?,
        constants: Vec::new(heap),
        overrides: overrides(heap, count)?,
        names: Vec::new(heap),
        variables: Vec::new(heap),
    })
}

fn sizes() -> Sizes {
    let size = Size {
        value: 1,
        handle: Some(0),
    };
    Sizes {
        workgroup: [size; 3],
        vertices: size,
        primitives: size,
    }
}

fn make_keys(heap: Global, count: u16) -> Result<Vec<String>, AllocError> {
    (0..count)
        .map(|i| format!(in heap; "{i}"))
        .try_collect(heap)
}

// Each override's key, with a value above zero.
fn make_settings(heap: Global, keys: &[String]) -> Result<Vec<Setting<'_>>, AllocError> {
    keys.iter()
        .map(|key| Setting {
            key: key.as_bytes(),
            value: 3.0,
        })
        .collect(heap)
}

fn print(rt: &HostRuntime, name: &str, settled: &Settling, time: Duration) -> anyhow::Result<()> {
    match settled {
        Ok(settled) => {
            let count = settled.finished().entries().len();
            let width = settled.sizes().workgroup[0].value;
            println!(rt; "{name}: {count} entries, workgroup width {width}")?;
        }
        Err(refused) => println!(rt; "{name}: {}", refused.refusal)?,
    }
    eprintln!(rt; "{name}: {time:?}")?;
    Ok(())
}

// Times the settling of a module whose expressions are laid out so.
fn time<F: Folder, L: Fn(u32, u16) -> Entry>(
    rt: &HostRuntime,
    name: &str,
    count: u16,
    folder: &F,
    laid_out: L,
) -> anyhow::Result<()>
    requires { L.IsAlwaysCallable laid_out }
{
    let heap = rt.alloc();
    let source = source(heap, entries(heap, count, laid_out)?, count)?;
    let keys = make_keys(heap, count)?;
    let all = make_settings(heap, keys.as_slice())?;
    let file = write(heap, all.as_slice())?;
    let module = Module::new(heap, source, sizes(), Room::most())?;
    let start = Instant::now(rt)?;
    let settled = module.settle(file.as_slice(), folder);
    print(rt, name, &settled, start.elapsed(rt)?)
}

fn main(rt: HostRuntime) -> anyhow::Result<()> {
    let whole = Whole { below: Keep };
    time(&rt, "composed, many overrides", MANY, &Keep, composed)?;
    time(&rt, "added, many overrides", MANY, &whole, added)?;
    time(&rt, "composed, few overrides", FEW, &Keep, composed)?;
    time(&rt, "added, few overrides", FEW, &whole, added)
}
