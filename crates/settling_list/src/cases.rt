// A case and its answer.
use crate::piles::Pile;
use arena::{Entry, Handle};
use ir::{Sizes, Source};
use refusals::Refusal;

// What settling gave: the finished tables and the sizes, or the refusal and what was written by then. The operands lie one entry's
// after the other's. Every finished entry is Const.
#[derive(PartialEq, Eq, Debug, Drop)]
pub struct Answer {
    pub ended: Result<[u32; 5], Refusal>,
    pub entries: Vec<Entry>,
    pub operands: Vec<Handle>,
    pub kinds: usize,
    pub constants: Vec<Handle>,
    pub overrides: Vec<Option<Handle>>,
    pub variables: Vec<Option<Handle>>,
    pub images: Vec<Handle>,
    pub settled: Vec<u32>,
}

// A module with its sizes, a settings file, a pile of folders, and the answer.
#[derive(PartialEq, Eq, Debug, Drop)]
pub struct Case {
    pub number: u32,
    pub pile: Pile,
    pub source: Source,
    pub sizes: Sizes,
    pub file: Vec<u8>,
    pub answer: Answer,
}
