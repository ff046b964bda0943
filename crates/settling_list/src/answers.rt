// What came of a case.
use crate::cases::Answer;
use crate::faults::Fault;
use crate::modules::push_entry;
use crate::refusal_values::refusal_of;
use crate::words::{push_handles, push_inits, push_numbers, read_five, read_number};
use arena::{Entry, Handle};
use refusals::Refusal;
use std::alloc::Global;

// How settling ended.
#[derive(Clone, Copy)]
enum Ended {
    Settled,
    Refused(Refusal),
}

fn read_outcome(heap: Global, words: &[&str]) -> Result<Ended, Fault> {
    match words {
        ["ok"] => Ok(Ended::Settled),
        ["refused", values @ ..] => {
            let mut numbers = Vec::new(heap);
            push_numbers(&mut numbers, values)?;
            let refusal = refusal_of(numbers.as_slice()).ok_or(Fault::BadOutcome)?;
            Ok(Ended::Refused(refusal))
        }
        _ => Err(Fault::BadOutcome),
    }
}

// How many kinds there are, each of them C.
fn read_kinds(words: &[&str]) -> Result<usize, Fault> {
    match words {
        [] => Ok(0),
        [letters] if letters.bytes().all(|letter| letter == b'C') => Ok(letters.len()),
        _ => Err(Fault::BadKinds),
    }
}

// An answer as far as it is read. What is an `Option` has to come once, the sizes where nothing was refused.
#[derive(Drop)]
pub(crate) struct Answering {
    heap: Global,
    ended: Option<Ended>,
    entries: Vec<Entry>,
    operands: Vec<Handle>,
    kinds: Option<usize>,
    constants: Option<Vec<Handle>>,
    overrides: Option<Vec<Option<Handle>>>,
    variables: Option<Vec<Option<Handle>>>,
    sizes: Option<[u32; 5]>,
    images: Option<Vec<Handle>>,
    settled: Option<Vec<u32>>,
}

// What comes once.
fn once<T: Drop>(place: &mut Option<T>, item: T) -> Result<(), Fault> {
    if place.is_some() {
        return Err(Fault::NotOnce);
    }
    *place = Some(item);
    Ok(())
}

fn handles(heap: Global, words: &[&str]) -> Result<Vec<Handle>, Fault> {
    let mut all = Vec::new(heap);
    push_handles(&mut all, words)?;
    Ok(all)
}

fn inits(heap: Global, words: &[&str]) -> Result<Vec<Option<Handle>>, Fault> {
    let mut all = Vec::new(heap);
    push_inits(&mut all, words)?;
    Ok(all)
}

fn numbers(heap: Global, words: &[&str]) -> Result<Vec<u32>, Fault> {
    let mut all = Vec::new(heap);
    push_numbers(&mut all, words)?;
    Ok(all)
}

// The end of an answer: the sizes are told exactly where nothing was refused.
fn ending(
    ended: Option<Ended>,
    sizes: Option<[u32; 5]>,
) -> Result<Result<[u32; 5], Refusal>, Fault> {
    match (ended, sizes) {
        (Some(Ended::Settled), Some(sizes)) => Ok(Ok(sizes)),
        (Some(Ended::Refused(refusal)), None) => Ok(Err(refusal)),
        _ => Err(Fault::NotOnce),
    }
}

impl Answering {
    pub(crate) fn new(heap: Global) -> Answering {
        Answering {
            heap,
            ended: None,
            entries: Vec::new(heap),
            operands: Vec::new(heap),
            kinds: None,
            constants: None,
            overrides: None,
            variables: None,
            sizes: None,
            images: None,
            settled: None,
        }
    }

    // Whether the answer has begun.
    pub(crate) fn is_begun(&self) -> bool {
        self.ended.is_some()
    }

    // A line by its first word and the others.
    pub(crate) fn put(&mut self, item: &str, words: &[&str]) -> Result<(), Fault> {
        let heap = self.heap;
        match item {
            "settle" => once(&mut self.ended, read_outcome(heap, words)?),
            "G" => push_entry(&mut self.entries, &mut self.operands, words),
            "GK" => once(&mut self.kinds, read_kinds(words)?),
            "C" => once(&mut self.constants, handles(heap, words)?),
            "O" => once(&mut self.overrides, inits(heap, words)?),
            "V" => once(&mut self.variables, inits(heap, words)?),
            "Z" => once(&mut self.sizes, read_five(words)?),
            "H" => once(&mut self.images, handles(heap, words)?),
            "M" => once(&mut self.settled, numbers(heap, words)?),
            _ => Err(Fault::OutOfPlace),
        }
    }

    pub(crate) fn finish(self) -> Result<Answer, Fault> {
        let Answering {
            heap: _,
            ended,
            entries,
            operands,
            kinds,
            constants,
            overrides,
            variables,
            sizes,
            images,
            settled,
        } = self;
        Ok(Answer {
            ended: ending(ended, sizes)?,
            entries,
            operands,
            kinds: kinds.ok_or(Fault::NotOnce)?,
            constants: constants.ok_or(Fault::NotOnce)?,
            overrides: overrides.ok_or(Fault::NotOnce)?,
            variables: variables.ok_or(Fault::NotOnce)?,
            images: images.ok_or(Fault::NotOnce)?,
            settled: settled.ok_or(Fault::NotOnce)?,
        })
    }
}
