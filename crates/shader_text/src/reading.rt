// Reading a listing.
ghost use Rattle.std.specs.Prelude.{◌≡◌, MatchResult};
ghost use Rattle.shader_text.specs.declared.faults.Fault.TheVariants.{TooLong};

use crate::faults::{Fault, ShaderError};
use crate::name_texts::{read_bytes, read_name_text};
use crate::shader::Shader;
use crate::words::{
    NO_SPAN, only, read_handle, read_init, read_kind, read_numbers, read_run, read_span,
};
use arena::{Entry, Handle, Run, Span};
use ir::{Body, Constant, Override, Size, Sizes, Source};
use listing::read_scalar;
use operands::Sort;
use settings::read_decimal;
use std::alloc::Global;

// The names of the sizes, in the order of their places.
pub const SIZE_NAMES: [&str; 5] = ["x", "y", "z", "vertices", "primitives"];

// What belongs to a body.
const OF_BODIES: [&str; 6] = [
    "entry",
    "entry-operands",
    "record",
    "record-operands",
    "local",
    "named",
];

// A stretch at the end of a list of this length.
fn run_at_end(len: usize, more: usize) -> Result<Run, Fault>
    ensures { MatchResult result (λ r. (r.at ≡ len) × (r.len ≡ more)) (λ e. e ≡ TooLong) }
{
    Ok(Run {
        at: u32::try_from(len).map_err(|_| Fault::TooLong)?,
        len: u32::try_from(more).map_err(|_| Fault::TooLong)?,
    })
}

fn push_operands(operands: &mut Vec<Handle>, words: &[&str]) -> Result<(), Fault> {
    for word in words {
        operands.push(read_handle(word)?)?;
    }
    Ok(())
}

// Where the operands of an entry lie. Those that stand in its line go to the end of the list.
fn read_operands(operands: &mut Vec<Handle>, words: &[&str]) -> Result<Run, Fault> {
    match words {
        [":", line @ ..] => {
            let run = run_at_end(operands.len(), line.len())?;
            push_operands(operands, line)?;
            Ok(run)
        }
        [] => run_at_end(operands.len(), 0),
        [run] => read_run(run),
        _ => Err(Fault::TooManyWords),
    }
}

// Whether the operands of an entry begin here.
fn begins_operands(word: &str) -> bool {
    word == ":" || word.starts_with('@')
}

// The words of an entry without those of its span, and its span.
fn without_span<'s, 'w>(words: &'s [&'w str]) -> Result<(&'s [&'w str], Span), Fault> {
    match words {
        [rest @ .., "/", span] => Ok((rest, read_span(span)?)),
        _ => Ok((words, NO_SPAN)),
    }
}

fn read_entry(sort: Sort, operands: &mut Vec<Handle>, words: &[&str]) -> Result<Entry, Fault> {
    let [kind, rest @ ..] = words else {
        return Err(Fault::TooFewWords);
    };
    let kind = read_kind(sort, kind)?;
    let (rest, span) = without_span(rest)?;
    let count = rest
        .iter()
        .position(|word| begins_operands(word))
        .unwrap_or(rest.len());
    let (numbers, list) = rest.split_at(count);
    Ok(Entry {
        kind,
        words: read_numbers(numbers)?,
        run: read_operands(operands, list)?,
        span,
    })
}

fn push_entry(
    sort: Sort,
    entries: &mut Vec<Entry>,
    operands: &mut Vec<Handle>,
    words: &[&str],
) -> Result<(), Fault> {
    let entry = read_entry(sort, operands, words)?;
    entries.push(entry)?;
    Ok(())
}

fn read_id(word: &str) -> Result<Option<u16>, Fault> {
    if word == "-" {
        return Ok(None);
    }
    read_decimal(word).map(Some).ok_or(Fault::BadId)
}

// The run of a name, which goes to the end of the name bytes if it stands in the line.
fn read_name(heap: Global, names: &mut Vec<u8>, word: &str) -> Result<Option<Run>, Fault> {
    if word == "-" {
        return Ok(None);
    }
    if word.starts_with('@') {
        return read_run(word).map(Some);
    }
    let name = read_name_text(heap, word.as_bytes())?;
    let run = run_at_end(names.len(), name.len())?;
    names.extend_from_slice(name.as_slice())?;
    Ok(Some(run))
}

// The words after the scalar.
fn read_override_init(words: &[&str]) -> Result<Option<Handle>, Fault> {
    match words {
        [] => Err(Fault::TooFewWords),
        ["-"] => Ok(None),
        ["init", handle] => read_decimal(handle).map(Some).ok_or(Fault::BadOverrideInit),
        ["-" | "init", _, ..] => Err(Fault::TooManyWords),
        _ => Err(Fault::BadOverrideInit),
    }
}

fn read_override(heap: Global, names: &mut Vec<u8>, words: &[&str]) -> Result<Override, Fault> {
    let [id, name, scalar, init @ ..] = words else {
        return Err(Fault::TooFewWords);
    };
    Ok(Override {
        id: read_id(id)?,
        name: read_name(heap, names, name)?,
        scalar: read_scalar(scalar).ok_or(Fault::BadScalar)?,
        init: read_override_init(init)?,
    })
}

// The place of a size, and the size.
fn read_size(words: &[&str]) -> Result<(usize, Size), Fault> {
    let [name, value, handle @ ..] = words else {
        return Err(Fault::TooFewWords);
    };
    let place = SIZE_NAMES
        .iter()
        .position(|size| *size == *name)
        .ok_or(Fault::NoSuchSize)?;
    let value = read_decimal(value).ok_or(Fault::BadValue)?;
    let handle = match handle {
        [] => None,
        _ => read_init(only(handle)?)?,
    };
    Ok((place, Size { value, handle }))
}

// An item of a body.
fn read_body_item(body: &mut Body, item: &str, words: &[&str]) -> Result<(), Fault> {
    match item {
        "entry" => push_entry(
            Sort::Expressions,
            &mut body.entries,
            &mut body.operands,
            words,
        )?,
        "entry-operands" => push_operands(&mut body.operands, words)?,
        "record" => push_entry(
            Sort::Records,
            &mut body.records,
            &mut body.record_operands,
            words,
        )?,
        "record-operands" => push_operands(&mut body.record_operands, words)?,
        "local" => body.locals.push(read_init(only(words)?)?)?,
        "named" => body.named.push(read_handle(only(words)?)?)?,
        _ => return Err(Fault::NoSuchItem),
    }
    Ok(())
}

// An item of a module's tables.
fn read_source_item(
    heap: Global,
    source: &mut Source,
    item: &str,
    words: &[&str],
) -> Result<(), Fault> {
    match item {
        "global" => push_entry(
            Sort::Expressions,
            &mut source.entries,
            &mut source.operands,
            words,
        )?,
        "global-operands" => push_operands(&mut source.operands, words)?,
        "constant" => {
            let init = read_handle(only(words)?)?;
            source.constants.push(Constant { init })?;
        }
        "override" => {
            let item = read_override(heap, &mut source.names, words)?;
            source.overrides.push(item)?;
        }
        "names" => {
            let names = read_bytes(heap, only(words)?.as_bytes())?;
            source.names.extend_from_slice(names.as_slice())?;
        }
        "variable" => source.variables.push(read_init(only(words)?)?)?,
        _ => return Err(Fault::NoSuchItem),
    }
    Ok(())
}

fn empty_source(heap: Global) -> Source {
    Source {
        entries: Vec::new(heap),
        operands: Vec::new(heap),
        constants: Vec::new(heap),
        overrides: Vec::new(heap),
        names: Vec::new(heap),
        variables: Vec::new(heap),
    }
}

fn empty_body(heap: Global) -> Body {
    Body {
        entries: Vec::new(heap),
        operands: Vec::new(heap),
        records: Vec::new(heap),
        record_operands: Vec::new(heap),
        locals: Vec::new(heap),
        named: Vec::new(heap),
    }
}

// A listing as far as it is read.
#[derive(Drop)]
struct Reader {
    heap: Global,
    source: Source,
    sizes: [Option<Size>; 5],
    bodies: Vec<Body>,
}

impl Reader {
    fn new(heap: Global) -> Reader {
        Reader {
            heap,
            source: empty_source(heap),
            sizes: [None; 5],
            bodies: Vec::new(heap),
        }
    }

    fn put_size(&mut self, words: &[&str]) -> Result<(), Fault> {
        let (place, size) = read_size(words)?;
        match self.sizes.get_mut(place) {
            Some(given) if given.is_none() => *given = Some(size),
            _ => return Err(Fault::RepeatedSize),
        }
        Ok(())
    }

    fn put_item(&mut self, item: &str, words: &[&str]) -> Result<(), Fault> {
        match item {
            "body" if words.is_empty() => Ok(self.bodies.push(empty_body(self.heap))?),
            "body" => Err(Fault::TooManyWords),
            "size" => self.put_size(words),
            _ if OF_BODIES.contains(&item) => {
                let body = self.bodies.last_mut().ok_or(Fault::NoBody)?;
                read_body_item(body, item, words)
            }
            _ => read_source_item(self.heap, &mut self.source, item, words),
        }
    }

    // A line. From the first word that begins with # on it is a comment.
    fn put_line(&mut self, line: &str) -> Result<(), Fault> {
        let words: Vec<&str> = line
            .split_whitespace()
            .take_while(|word| !word.starts_with('#'))
            .collect(self.heap)?;
        match words.as_slice() {
            [] => Ok(()),
            [item, rest @ ..] => self.put_item(item, rest),
        }
    }

    fn finish(self) -> Shader {
        let Reader {
            heap: _,
            source,
            sizes,
            bodies,
        } = self;
        let [x, y, z, vertices, primitives] = sizes.map(|size| {
            size.unwrap_or(Size {
                value: 0,
                handle: None,
            })
        });
        let sizes = Sizes {
            workgroup: [x, y, z],
            vertices,
            primitives,
        };
        Shader {
            source,
            sizes,
            bodies,
        }
    }
}

// The tables that a text lists, or what is wrong with its first malformed line.
pub fn read_shader(heap: Global, text: &str) -> Result<Shader, ShaderError> {
    let mut reader = Reader::new(heap);
    for (line, words) in (1..).zip(text.lines()) {
        reader
            .put_line(words)
            .map_err(|fault| ShaderError { line, fault })?;
    }
    Ok(reader.finish())
}
