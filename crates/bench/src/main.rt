// Times a settings file of the largest size: 4,096 keys of 255 bytes that differ in their last two
// bytes alone. What was found goes to standard output, the times to standard error.
#![tactic(auto)]

use anyhow::Context;
use settings::{Identifier, Setting, Settings};
use std::alloc::{AllocError, Global};
use std::time::Instant;

fn key(heap: Global, i: u16) -> Result<Vec<u8>, AllocError> {
    let mut key = vec![in heap; b'k'; 253]?;
    key.push((i / 64 % 64) as u8 + b'0')?;
    key.push((i % 64) as u8 + b'0')?;
    Ok(key)
}

fn make_keys(heap: Global) -> Result<Vec<Vec<u8>>, AllocError> {
    (0..4096).map(|i| key(heap, i)).try_collect(heap)
}

fn settings_of(heap: Global, keys: &[Vec<u8>]) -> Result<Vec<Setting<'_>>, AllocError> {
    keys.iter()
        .map(|key| Setting {
            key: key.as_slice(),
            value: 1.0,
        })
        .collect(heap)
}

fn identifiers_of(heap: Global, keys: &[Vec<u8>]) -> Result<Vec<Identifier<'_>>, AllocError> {
    keys.iter()
        .map(|key| Identifier {
            id: None,
            name: Some(key.as_slice()),
        })
        .collect(heap)
}

fn found(settings: &Settings<'_>, overrides: &[Identifier<'_>]) -> usize {
    overrides
        .iter()
        .filter(|who| settings.value_for(**who).is_some())
        .count()
}

fn run(rt: &HostRuntime) -> anyhow::Result<()> {
    let heap = rt.alloc();
    let keys = make_keys(heap)?;
    let all = settings_of(heap, keys.as_slice())?;
    let overrides = identifiers_of(heap, keys.as_slice())?;
    let start = Instant::now(rt)?;
    let file = settings::write(heap, all.as_slice())
        .ok()
        .context("the settings were not written")?;
    let written = start.elapsed(rt)?;
    let settings = Settings::read(file.as_slice())
        .ok()
        .context("the file was not read")?;
    let read = start.elapsed(rt)?;
    let n = found(&settings, overrides.as_slice());
    let matched = start.elapsed(rt)?;
    let taken = settings.every_key_taken(overrides.as_slice()).is_ok();
    let checked = start.elapsed(rt)?;
    let count = settings.len();
    println!(rt; "{count} keys read, {n} values found, every key taken: {taken}")?;
    eprintln!(rt;
        "after writing {written:?}, reading {read:?}, matching {matched:?}, checking that each key is taken {checked:?}"
    )?;
    Ok(())
}

fn main(rt: HostRuntime) -> anyhow::Result<()> {
    run(&rt)
}
