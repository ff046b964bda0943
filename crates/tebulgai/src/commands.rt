// The commands: each reads its files, asks the library for the text, and prints it.
use crate::failures::Failure;
use crate::files::{load, load_text, on_file, store};
use crate::help::HELP;
use fold_report::{Pile, report_folds};
use inspection::{report_listing, rewrite_listing};
use report::{ReportError, TextError, pack, report_literals, unpack};
use settings::read_decimal;
use settle_report::report_settling;
use std::alloc::Global;
use std::env;

// How a report ends in which so many things are refused.
fn refused(count: usize) -> Result<(), Failure> {
    match count {
        0 => Ok(()),
        n => Err(Failure::Refusals(n)),
    }
}

fn run_literals(rt: &HostRuntime, settings: &str, overrides: &str) -> Result<(), Failure> {
    let heap = rt.alloc();
    let file = load(rt, settings)?;
    let text = load_text(rt, overrides)?;
    let made = report_literals(heap, file.as_slice(), text.as_str());
    // the lines that are read are those of the overrides
    let path = match &made {
        Err(ReportError::Text(TextError::Listing(_))) => overrides,
        _ => settings,
    };
    let report = on_file(heap, path, made)?;
    rt.print(report.text.as_str())?;
    refused(report.tally.refusals())
}

fn run_pack(rt: &HostRuntime, text: &str, out: &str) -> Result<(), Failure> {
    let heap = rt.alloc();
    let lines = load_text(rt, text)?;
    let packed = on_file(heap, text, pack(heap, lines.as_str()))?;
    store(rt, out, packed.bytes.as_slice())?;
    println!(rt; "{out}: {packed}")?;
    Ok(())
}

fn run_unpack(rt: &HostRuntime, settings: &str) -> Result<(), Failure> {
    let heap = rt.alloc();
    let file = load(rt, settings)?;
    let text = on_file(heap, settings, unpack(heap, file.as_slice()))?;
    rt.print(text.as_str())?;
    Ok(())
}

fn run_check(rt: &HostRuntime, listing: &str) -> Result<(), Failure> {
    let heap = rt.alloc();
    let text = load_text(rt, listing)?;
    let report = on_file(heap, listing, report_listing(heap, text.as_str()))?;
    rt.print(report.text.as_str())?;
    refused(report.tally.refusals)
}

fn run_print(rt: &HostRuntime, listing: &str) -> Result<(), Failure> {
    let heap = rt.alloc();
    let text = load_text(rt, listing)?;
    let written = on_file(heap, listing, rewrite_listing(heap, text.as_str()))?;
    rt.print(written.as_str())?;
    Ok(())
}

// The words after a fold's listing: a pile, and the expressions whose trees are shown.
fn read_options(heap: Global, words: &[&str]) -> Result<(Pile, Vec<u32>), Failure> {
    let mut pile = Pile::KeepWholeFind;
    let mut trees = Vec::new(heap);
    let mut options = words.iter();
    while let Some(option) = options.next() {
        let value = options.next().ok_or(Failure::Usage)?;
        match *option {
            "--pile" => pile = Pile::named(value).ok_or(Failure::Usage)?,
            "--tree" => trees.push(read_decimal(value).ok_or(Failure::Usage)?)?,
            _ => return Err(Failure::Usage),
        }
    }
    Ok((pile, trees))
}

fn run_fold(rt: &HostRuntime, listing: &str, options: &[&str]) -> Result<(), Failure> {
    let heap = rt.alloc();
    let (pile, trees) = read_options(heap, options)?;
    let text = load_text(rt, listing)?;
    let report = report_folds(heap, text.as_str(), pile, trees.as_slice());
    let report = on_file(heap, listing, report)?;
    rt.print(report.as_str())?;
    Ok(())
}

// The pile behind a settling's files, or the usual one.
fn read_pile(options: &[&str]) -> Result<Pile, Failure> {
    match options {
        [] => Ok(Pile::KeepWholeFind),
        ["--pile", pile] => Pile::named(pile).ok_or(Failure::Usage),
        _ => Err(Failure::Usage),
    }
}

fn run_settle(
    rt: &HostRuntime,
    listing: &str,
    settings: &str,
    options: &[&str],
) -> Result<(), Failure> {
    let heap = rt.alloc();
    let pile = read_pile(options)?;
    let text = load_text(rt, listing)?;
    let file = load(rt, settings)?;
    let report = report_settling(heap, text.as_str(), file.as_slice(), pile);
    let report = on_file(heap, listing, report)?;
    rt.print(report.text.as_str())?;
    refused(usize::from(report.is_refused))
}

fn run_help(rt: &HostRuntime) -> Result<(), Failure> {
    rt.print(HELP)?;
    Ok(())
}

// Runs the command that the words after the program's own name ask for.
pub(crate) fn run(rt: &HostRuntime) -> Result<(), Failure> {
    let heap = rt.alloc();
    let args: Vec<String> = env::args(rt)?.skip(1).collect(heap)?;
    let words: Vec<&str> = args.iter().map(|word| word.as_str()).collect(heap)?;
    match words.as_slice() {
        ["literals", settings, overrides] => run_literals(rt, settings, overrides),
        ["pack", text, out] => run_pack(rt, text, out),
        ["unpack", settings] => run_unpack(rt, settings),
        ["check", listing] => run_check(rt, listing),
        ["print", listing] => run_print(rt, listing),
        ["fold", listing, options @ ..] => run_fold(rt, listing, options),
        ["settle", listing, settings, options @ ..] => run_settle(rt, listing, settings, options),
        ["help"] => run_help(rt),
        _ => Err(Failure::Usage),
    }
}
