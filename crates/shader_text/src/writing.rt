// Writing a listing.
ghost use Rattle.std.specs.Prelude.{◌≡◌, ◌+◌, ◌≤◌, true, false, length, slice_range, MatchOption, IfSome};
ghost use Rattle.shader_text.specs.Words.{Cut, in_line_of};

use crate::name_texts::{name_text, quoted};
use crate::reading::SIZE_NAMES;
use crate::shader::Shader;
use crate::words::{HandleWord, InitWord, KindWord, NO_SPAN, RunWord, SpanWord};
use arena::{Entry, Handle, Run};
use ir::{Body, Override, Size, Sizes, Source};
use listing::ScalarName;
use operands::Sort;
use std::alloc::{AllocError, Global};
use std::fmt::Write;

// How many operands stand in a line of their own, and how many name bytes.
const OPERANDS: usize = 16;

const NAME_BYTES: usize = 32;

// Ends the line of an item, with its index for people.
fn end_item(out: &mut String, index: usize) -> Result<(), AllocError> {
    writeln!(out, "  # {index}")
}

// How many of an entry's words are written: those up to the last that is not 0.
fn words_used(words: &[u32; 4]) -> usize
    ensures { Cut words.now result }
{
    match words {
        [0, 0, 0, 0] => 0,
        [_, 0, 0, 0] => 1,
        [_, _, 0, 0] => 2,
        [_, _, _, 0] => 3,
        _ => 4,
    }
}

fn put_words(out: &mut String, words: &[u32; 4]) -> Result<(), AllocError> {
    for word in words.iter().take(words_used(words)) {
        write!(out, " {word}")?;
    }
    Ok(())
}

fn put_operands(out: &mut String, operands: &[Handle]) -> Result<(), AllocError> {
    for operand in operands {
        write!(out, " {}", HandleWord(*operand))?;
    }
    Ok(())
}

// The stretch of a list that is a run, if the run lies in the list and begins right after what is written of it.
fn in_line<T>(list: &[T], done: usize, run: Run) -> Option<&[T]>
    ensures found { MatchOption result (in_line_of (length list.now) done run ≡ false) (λ s. (in_line_of (length list.now) done run ≡ true) × (s.now ≡ slice_range list.now run.at (run.at + run.len))) }
    ensures within { IfSome result (λ s. done + length s.now ≤ length list.now) }
{
    if run.at as usize == done {
        list.get(done..done + run.len as usize)
    } else {
        None
    }
}

// Where an entry's operands lie, and how much of the list is written after it.
fn put_run(
    out: &mut String,
    operands: &[Handle],
    done: usize,
    run: Run,
) -> Result<usize, AllocError> {
    let Some(line) = in_line(operands, done, run) else {
        write!(out, " {}", RunWord(run))?;
        return Ok(done);
    };
    if !line.is_empty() {
        out.push_str(" :")?;
        put_operands(out, line)?;
    }
    Ok(done + line.len())
}

// A line without its end.
fn put_entry(
    out: &mut String,
    sort: Sort,
    entry: &Entry,
    operands: &[Handle],
    done: usize,
) -> Result<usize, AllocError> {
    write!(out, " {}", KindWord(sort, entry.kind))?;
    put_words(out, &entry.words)?;
    let done = put_run(out, operands, done, entry.run)?;
    if entry.span != NO_SPAN {
        write!(out, " / {}", SpanWord(entry.span))?;
    }
    Ok(done)
}

// The operands that stand in no entry's line.
fn put_rest(out: &mut String, item: &str, rest: &[Handle]) -> Result<(), AllocError> {
    for operands in rest.chunks(OPERANDS) {
        write!(out, "{item}-operands")?;
        put_operands(out, operands)?;
        out.push('\n')?;
    }
    Ok(())
}

// A table of entries or of records, and its operand list.
fn put_entries(
    out: &mut String,
    sort: Sort,
    item: &str,
    entries: &[Entry],
    operands: &[Handle],
) -> Result<(), AllocError> {
    let mut done = 0usize;
    for (i, entry) in entries.iter().enumerate() {
        out.push_str(item)?;
        done = put_entry(out, sort, entry, operands, done)?;
        end_item(out, i)?;
    }
    put_rest(out, item, operands.get(done..).unwrap_or(&[]))
}

// The name of an override, and how many of the name bytes are written after it.
fn put_name(
    out: &mut String,
    heap: Global,
    names: &[u8],
    done: usize,
    run: Option<Run>,
) -> Result<usize, AllocError> {
    let Some(run) = run else {
        out.push_str(" -")?;
        return Ok(done);
    };
    let Some(name) = in_line(names, done, run) else {
        write!(out, " {}", RunWord(run))?;
        return Ok(done);
    };
    let text = name_text(heap, name)?;
    write!(out, " {text}")?;
    Ok(done + name.len())
}

fn put_override(
    out: &mut String,
    heap: Global,
    item: &Override,
    names: &[u8],
    done: usize,
) -> Result<usize, AllocError> {
    match item.id {
        Some(id) => write!(out, "override {id}")?,
        None => out.push_str("override -")?,
    }
    let done = put_name(out, heap, names, done, item.name)?;
    write!(out, " {}", ScalarName(item.scalar))?;
    match item.init {
        Some(init) => write!(out, " init {init}")?,
        None => out.push_str(" -")?,
    }
    Ok(done)
}

// The name bytes that stand in no override's line.
fn put_names(out: &mut String, heap: Global, rest: &[u8]) -> Result<(), AllocError> {
    for bytes in rest.chunks(NAME_BYTES) {
        let text = quoted(heap, bytes)?;
        writeln!(out, "names {text}")?;
    }
    Ok(())
}

fn put_overrides(
    out: &mut String,
    heap: Global,
    overrides: &[Override],
    names: &[u8],
) -> Result<(), AllocError> {
    let mut done = 0usize;
    for (i, item) in overrides.iter().enumerate() {
        done = put_override(out, heap, item, names, done)?;
        end_item(out, i)?;
    }
    put_names(out, heap, names.get(done..).unwrap_or(&[]))
}

// Inits that may be left out.
fn put_inits(out: &mut String, item: &str, inits: &[Option<Handle>]) -> Result<(), AllocError> {
    for (i, init) in inits.iter().enumerate() {
        write!(out, "{item} {}", InitWord(*init))?;
        end_item(out, i)?;
    }
    Ok(())
}

// The sizes that say something.
fn put_sizes(out: &mut String, sizes: &Sizes) -> Result<(), AllocError> {
    for (name, Size { value, handle }) in SIZE_NAMES.iter().zip(sizes.all()) {
        match handle {
            Some(handle) => writeln!(out, "size {name} {value} {handle}")?,
            None if value != 0 => writeln!(out, "size {name} {value}")?,
            None => {}
        }
    }
    Ok(())
}

fn put_source(out: &mut String, heap: Global, source: &Source) -> Result<(), AllocError> {
    put_entries(
        out,
        Sort::Expressions,
        "global",
        &source.entries,
        &source.operands,
    )?;
    for (i, constant) in source.constants.iter().enumerate() {
        write!(out, "constant {}", HandleWord(constant.init))?;
        end_item(out, i)?;
    }
    put_overrides(out, heap, &source.overrides, &source.names)?;
    put_inits(out, "variable", &source.variables)
}

fn put_named(out: &mut String, named: &[Handle]) -> Result<(), AllocError> {
    for (i, handle) in named.iter().enumerate() {
        write!(out, "named {}", HandleWord(*handle))?;
        end_item(out, i)?;
    }
    Ok(())
}

fn put_body(out: &mut String, body: &Body) -> Result<(), AllocError> {
    put_entries(
        out,
        Sort::Expressions,
        "entry",
        &body.entries,
        &body.operands,
    )?;
    put_entries(
        out,
        Sort::Records,
        "record",
        &body.records,
        &body.record_operands,
    )?;
    put_inits(out, "local", &body.locals)?;
    put_named(out, &body.named)
}

// The listing of a shader, which `read_shader` reads as the same tables.
pub fn write_shader(heap: Global, shader: &Shader) -> Result<String, AllocError> {
    let mut out = String::new(heap);
    put_source(&mut out, heap, &shader.source)?;
    put_sizes(&mut out, &shader.sizes)?;
    for (i, body) in shader.bodies.iter().enumerate() {
        write!(out, "\nbody")?;
        end_item(&mut out, i)?;
        put_body(&mut out, body)?;
    }
    Ok(out)
}
