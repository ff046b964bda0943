// Prints what is said of each listing that it is given, and how long its written form is, which reads back as itself; what the
// expressions of one become; and what settling others by settings files gives.
#![tactic(auto)]

use anyhow::{Context, bail, ensure};
use fold_report::{Pile, report_folds};
use inspection::{report_listing, rewrite_listing};
use settings::read_decimal;
use settle_report::report_settling;
use std::alloc::Global;
use std::{env, fs};

fn put_report(rt: &HostRuntime, heap: Global, text: &str) -> anyhow::Result<()> {
    let report = report_listing(heap, text)?;
    rt.print(report.text.as_str())?;
    let written = rewrite_listing(heap, text)?;
    let again = rewrite_listing(heap, written.as_str())?;
    ensure!(
        written.as_str() == again.as_str(),
        "the written form does not read back"
    );
    println!(rt; "written in {} lines", written.as_str().lines().count())?;
    Ok(())
}

fn show(rt: &HostRuntime, path: &str) -> anyhow::Result<()> {
    let text = fs::read_to_string(rt, path).context(path)?;
    println!(rt; "{path}")?;
    match put_report(rt, rt.alloc(), text.as_str()) {
        Ok(()) => println!(rt; "")?,
        Err(error) => println!(rt; "{error}")?,
    }
    Ok(())
}

// What the expressions of a listing become under a pile, and the trees of some of them.
fn show_folds(rt: &HostRuntime, path: &str, pile: &str, trees: &[&str]) -> anyhow::Result<()> {
    let heap = rt.alloc();
    let pile = Pile::named(pile).context("no such pile")?;
    let mut handles = Vec::new(heap);
    for tree in trees {
        handles.push(read_decimal(tree).context("no such expression")?)?;
    }
    let text = fs::read_to_string(rt, path).context(path)?;
    let report = report_folds(heap, text.as_str(), pile, handles.as_slice())?;
    rt.print(report.as_str())?;
    Ok(())
}

// What settling a listing by a settings file gives.
fn show_settling(
    rt: &HostRuntime,
    listing: &str,
    pile: &str,
    settings: &str,
) -> anyhow::Result<()> {
    let heap = rt.alloc();
    let pile = Pile::named(pile).context("no such pile")?;
    let text = fs::read_to_string(rt, listing).context(listing)?;
    let file = fs::read(rt, settings).context(settings)?;
    let report = report_settling(heap, text.as_str(), file.as_slice(), pile)?;
    println!(rt; "{listing} by {settings}")?;
    rt.print(report.text.as_str())?;
    println!(rt; "")?;
    Ok(())
}

// A step that the arguments ask for: a listing to check, or a command with its words.
fn step(rt: &HostRuntime, words: &str) -> anyhow::Result<()> {
    let heap = rt.alloc();
    let words: Vec<&str> = words.split(' ').collect(heap)?;
    match words.as_slice() {
        ["check", path] => show(rt, path),
        ["fold", path, pile, trees @ ..] => show_folds(rt, path, pile, trees),
        ["settle", listing, pile, settings] => show_settling(rt, listing, pile, settings),
        _ => bail!("no such step"),
    }
}

fn main(rt: HostRuntime) -> anyhow::Result<()> {
    let heap = rt.alloc();
    let args: Vec<String> = env::args(&rt)?.skip(1).collect(heap)?;
    for words in &args {
        step(&rt, words.as_str())?;
    }
    Ok(())
}
