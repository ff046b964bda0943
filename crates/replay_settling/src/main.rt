// Settles what stored lists give, and holds it against the answers that stand beside it. For each list it prints what differs, and the
// counts; how long the settlings took goes to standard error. Its arguments are the lists' paths.
#![tactic(auto)]

use anyhow::{Context, ensure};
use evaluator::Folder;
use ir::Sizes;
use layers::{Find, Keep, Whole};
use other_folders::{Padding, Trap};
use pipeline_constants::{Finished, Module, Room, Written};
use refusals::Refusal;
use settling_list::{Case, Counts, Ours, Part, Pile, Reader, Sprung, Tally};
use std::time::{Duration, Instant};
use std::{env, fs};

// What came of a list so far, and how long its settlings took.
#[derive(Clone, Copy)]
struct Replay {
    tally: Tally,
    time: Duration,
}

fn counts(written: Written) -> Counts {
    Counts {
        entries: written.entries,
        operands: written.operands,
        kinds: written.kinds,
        constants: written.constants,
        overrides: written.overrides,
        variables: written.variables,
        images: written.images,
        settled: written.settled,
    }
}

fn ours(finished: &Finished, sizes: Sizes, refused: Option<(Refusal, Counts)>) -> Ours<'_> {
    Ours {
        refused,
        entries: finished.entries(),
        operands: finished.operands(),
        kinds: finished.kinds(),
        constants: finished.constants(),
        overrides: finished.overrides(),
        variables: finished.variables(),
        sizes,
        images: finished.handle_table(),
        settled: finished.overrides_constants(),
    }
}

// Settles a case with this folder. Gives the first part that differs from the answer.
fn settle<F: Folder>(
    rt: &HostRuntime,
    case: Case,
    folder: &F,
    replay: &mut Replay,
) -> anyhow::Result<Option<Part>> {
    let Case {
        source,
        sizes,
        file,
        answer,
        ..
    } = case;
    let module = Module::new(rt.alloc(), source, sizes, Room::most())?;
    let start = Instant::now(rt)?;
    let made = module.settle(file.as_slice(), folder);
    let time = start.elapsed(rt)?;
    replay.time = replay.time.saturating_add(time);
    let differs = match made {
        Ok(settled) => replay
            .tally
            .add(&answer, &ours(settled.finished(), *settled.sizes(), None)),
        Err(refused) => {
            let told = Some((refused.refusal, counts(refused.written)));
            let module = refused.module;
            replay
                .tally
                .add(&answer, &ours(module.finished(), *module.sizes(), told))
        }
    };
    Ok(differs)
}

fn trap<F: Folder>(sprung: Sprung, below: F) -> Trap<F> {
    Trap {
        kind: sprung.kind,
        code: sprung.code,
        below,
    }
}

// Settles a case with the folders of its pile.
fn settle_pile(rt: &HostRuntime, case: Case, replay: &mut Replay) -> anyhow::Result<Option<Part>> {
    let whole = Whole { below: Keep };
    let padding = Padding { below: Keep };
    match case.pile {
        Pile::Keep => settle(rt, case, &Keep, replay),
        Pile::KeepWhole => settle(rt, case, &whole, replay),
        Pile::KeepFind => settle(rt, case, &Find { below: Keep }, replay),
        Pile::KeepWholeFind => settle(rt, case, &Find { below: whole }, replay),
        Pile::KeepFindWhole => {
            let find = Find { below: Keep };
            settle(rt, case, &Whole { below: find }, replay)
        }
        Pile::KeepPadding => settle(rt, case, &padding, replay),
        Pile::KeepPaddingWhole => settle(rt, case, &Whole { below: padding }, replay),
        Pile::KeepPaddingFind => settle(rt, case, &Find { below: padding }, replay),
        Pile::KeepTrap(sprung) => settle(rt, case, &trap(sprung, Keep), replay),
        Pile::KeepWholeTrap(sprung) => settle(rt, case, &trap(sprung, whole), replay),
        Pile::KeepTrapWhole(sprung) => {
            let below = trap(sprung, Keep);
            settle(rt, case, &Whole { below }, replay)
        }
        Pile::KeepWholeFindTrap(sprung) => {
            let find = Find { below: whole };
            settle(rt, case, &trap(sprung, find), replay)
        }
        Pile::KeepWholeTrapFind(sprung) => {
            let below = trap(sprung, whole);
            settle(rt, case, &Find { below }, replay)
        }
    }
}

// Settles the cases of a list one after the other, and prints which differ.
fn run(rt: &HostRuntime, text: &str) -> anyhow::Result<Replay> {
    let mut reader = Reader::new(rt.alloc());
    let mut replay = Replay {
        tally: Tally::new(),
        time: Duration::ZERO,
    };
    for line in text.lines() {
        if let Some(case) = reader.put_line(line)? {
            let number = case.number;
            if let Some(part) = settle_pile(rt, case, &mut replay)? {
                println!(rt; "case {number}: other {}", part.words())?;
            }
        }
    }
    reader.finish()?;
    Ok(replay)
}

fn main(rt: HostRuntime) -> anyhow::Result<()> {
    let heap = rt.alloc();
    let paths: Vec<String> = env::args(&rt)?.skip(1).collect(heap)?;
    for path in &paths {
        let path = path.as_str();
        let text = fs::read_to_string(&rt, path).context(path)?;
        let Replay { tally, time } = run(&rt, text.as_str()).context(path)?;
        let told = format!(in heap; "{path}: {tally}")?;
        rt.print(told.as_str())?;
        eprintln!(rt; "{path}: settled in {time:?}")?;
        ensure!(tally.is_same(), "not all answers are the same");
    }
    Ok(())
}
