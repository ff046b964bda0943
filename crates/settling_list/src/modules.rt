// What is given in a case: a module, its sizes, settings and a pile.
use crate::faults::Fault;
use crate::piles::{Pile, read_pile};
use crate::words::{
    push_handles, push_inits, push_name, read_bits, read_byte, read_five, read_init, read_number,
};
use arena::{Entry, Handle, Run, Span};
use ir::{Constant, Override, Size, Sizes, Source};
use rounding::{Scalar, ScalarKind};
use settings::read_decimal;
use std::alloc::Global;

// The longest key.
const LONGEST_KEY: usize = 255;

// A stretch at the end of a list of this length.
fn run_at_end(len: usize, more: usize) -> Result<Run, Fault> {
    Ok(Run {
        at: u32::try_from(len).map_err(|_| Fault::TooLong)?,
        len: u32::try_from(more).map_err(|_| Fault::TooLong)?,
    })
}

fn read_words(words: &[&str]) -> Result<[u32; 4], Fault> {
    match words {
        [a, b, c, d] => Ok([
            read_number(a)?,
            read_number(b)?,
            read_number(c)?,
            read_number(d)?,
        ]),
        _ => Err(Fault::BadEntry),
    }
}

fn read_entry(words: &[&str], run: Run) -> Result<Entry, Fault> {
    match words {
        [kind, numbers @ .., "/", start, end, "/"] => Ok(Entry {
            kind: read_byte(kind)?,
            words: read_words(numbers)?,
            run,
            span: Span {
                start: read_number(start)?,
                end: read_number(end)?,
            },
        }),
        _ => Err(Fault::BadEntry),
    }
}

// How many words stand before the operands.
const BEFORE_OPERANDS: usize = 9;

// An entry at the end of its table, and its operands at the end of theirs.
pub(crate) fn push_entry(
    entries: &mut Vec<Entry>,
    operands: &mut Vec<Handle>,
    words: &[&str],
) -> Result<(), Fault> {
    if words.len() < BEFORE_OPERANDS {
        return Err(Fault::BadEntry);
    }
    let (front, list) = words.split_at(BEFORE_OPERANDS);
    let run = run_at_end(operands.len(), list.len())?;
    entries.push(read_entry(front, run)?)?;
    push_handles(operands, list)
}

fn push_constants(constants: &mut Vec<Constant>, words: &[&str]) -> Result<(), Fault> {
    for word in words {
        let init = read_number(word)?;
        constants.push(Constant { init })?;
    }
    Ok(())
}

fn read_id(word: &str) -> Result<Option<u16>, Fault> {
    if word == "-" {
        return Ok(None);
    }
    read_decimal(word).map(Some).ok_or(Fault::BadOverride)
}

// A name goes to the end of the name bytes.
fn read_name(names: &mut Vec<u8>, word: &str) -> Result<Option<Run>, Fault> {
    if word == "-" {
        return Ok(None);
    }
    let at = names.len();
    let len = push_name(names, word)?;
    run_at_end(at, len).map(Some)
}

fn kind_numbered(number: u8) -> Option<ScalarKind> {
    match number {
        0 => Some(ScalarKind::Sint),
        1 => Some(ScalarKind::Uint),
        2 => Some(ScalarKind::Float),
        3 => Some(ScalarKind::Bool),
        _ => None,
    }
}

fn read_scalar(kind: &str, width: &str) -> Result<Scalar, Fault> {
    Ok(Scalar {
        kind: kind_numbered(read_byte(kind)?).ok_or(Fault::BadOverride)?,
        width: read_byte(width)?,
    })
}

fn read_override(names: &mut Vec<u8>, words: &[&str]) -> Result<Override, Fault> {
    match words {
        [id, name, kind, width, init] => Ok(Override {
            id: read_id(id)?,
            name: read_name(names, name)?,
            scalar: read_scalar(kind, width)?,
            init: read_init(init)?,
        }),
        _ => Err(Fault::BadOverride),
    }
}

fn read_size_handles(words: &[&str]) -> Result<[Option<Handle>; 5], Fault> {
    match words {
        [x, y, z, vertices, primitives] => Ok([
            read_init(x)?,
            read_init(y)?,
            read_init(z)?,
            read_init(vertices)?,
            read_init(primitives)?,
        ]),
        _ => Err(Fault::BadSizes),
    }
}

fn size(value: u32, handle: Option<Handle>) -> Size {
    Size { value, handle }
}

fn sizes_of(values: [u32; 5], handles: [Option<Handle>; 5]) -> Sizes {
    let [x, y, z, vertices, primitives] = values;
    let [by_x, by_y, by_z, by_vertices, by_primitives] = handles;
    Sizes {
        workgroup: [size(x, by_x), size(y, by_y), size(z, by_z)],
        vertices: size(vertices, by_vertices),
        primitives: size(primitives, by_primitives),
    }
}

fn read_sizes(words: &[&str]) -> Result<Sizes, Fault> {
    match words {
        [a, b, c, d, e, "/", handles @ ..] => Ok(sizes_of(
            read_five(&[*a, *b, *c, *d, *e])?,
            read_size_handles(handles)?,
        )),
        _ => Err(Fault::BadSizes),
    }
}

// The parts of a settings file: how long each key is, the keys one after the other, the bits of the values.
#[derive(Drop)]
struct Settings {
    lengths: Vec<u8>,
    keys: Vec<u8>,
    values: Vec<u64>,
}

impl Settings {
    fn new(heap: Global) -> Settings {
        Settings {
            lengths: Vec::new(heap),
            keys: Vec::new(heap),
            values: Vec::new(heap),
        }
    }

    fn push(&mut self, words: &[&str]) -> Result<(), Fault> {
        let [key, value] = words else {
            return Err(Fault::BadSetting);
        };
        let bits = read_bits(value).ok_or(Fault::BadSetting)?;
        let len = push_name(&mut self.keys, key)?;
        let len = u8::try_from(len).map_err(|_| Fault::BadSetting)?;
        self.lengths.push(len)?;
        self.values.push(bits)?;
        Ok(())
    }

    // The file that has these settings.
    fn file(&self, heap: Global) -> Result<Vec<u8>, Fault> {
        let count = u16::try_from(self.values.len()).map_err(|_| Fault::BadSetting)?;
        let mut file = Vec::new(heap);
        file.extend_from_slice(&count.to_le_bytes())?;
        file.extend_from_slice(self.lengths.as_slice())?;
        file.extend_from_slice(self.keys.as_slice())?;
        for bits in &self.values {
            file.extend_from_slice(&bits.to_le_bytes())?;
        }
        Ok(file)
    }
}

pub(crate) fn empty_source(heap: Global) -> Source {
    Source {
        entries: Vec::new(heap),
        operands: Vec::new(heap),
        constants: Vec::new(heap),
        overrides: Vec::new(heap),
        names: Vec::new(heap),
        variables: Vec::new(heap),
    }
}

// What is given, as far as it is read. The pile and the sizes have to come.
#[derive(Drop)]
pub(crate) struct Given {
    pub(crate) pile: Option<Pile>,
    pub(crate) source: Source,
    pub(crate) sizes: Option<Sizes>,
    settings: Settings,
}

impl Given {
    pub(crate) fn new(heap: Global) -> Given {
        Given {
            pile: None,
            source: empty_source(heap),
            sizes: None,
            settings: Settings::new(heap),
        }
    }

    pub(crate) fn file(&self, heap: Global) -> Result<Vec<u8>, Fault> {
        self.settings.file(heap)
    }

    fn put_pile(&mut self, words: &[&str]) -> Result<(), Fault> {
        if self.pile.is_some() {
            return Err(Fault::NotOnce);
        }
        self.pile = Some(read_pile(words)?);
        Ok(())
    }

    fn put_sizes(&mut self, words: &[&str]) -> Result<(), Fault> {
        if self.sizes.is_some() {
            return Err(Fault::NotOnce);
        }
        self.sizes = Some(read_sizes(words)?);
        Ok(())
    }

    // A line by its first word and the others.
    pub(crate) fn put(&mut self, item: &str, words: &[&str]) -> Result<(), Fault> {
        let source = &mut self.source;
        match item {
            "g" => push_entry(&mut source.entries, &mut source.operands, words),
            "c" => push_constants(&mut source.constants, words),
            "o" => {
                let item = read_override(&mut source.names, words)?;
                source.overrides.push(item)?;
                Ok(())
            }
            "v" => push_inits(&mut source.variables, words),
            "k" => self.settings.push(words),
            "pile" => self.put_pile(words),
            "z" => self.put_sizes(words),
            _ => Err(Fault::OutOfPlace),
        }
    }
}
