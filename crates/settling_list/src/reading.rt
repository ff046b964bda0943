// Reading a list, line by line.
use crate::answers::Answering;
use crate::cases::Case;
use crate::faults::{Fault, ListError};
use crate::modules::Given;
use crate::words::{read_number, split};
use std::alloc::Global;

// A case as far as it is read.
#[derive(Drop)]
struct Open {
    given: Given,
    answer: Answering,
}

impl Open {
    fn new(heap: Global) -> Open {
        Open {
            given: Given::new(heap),
            answer: Answering::new(heap),
        }
    }

    // A line of the case: what is given, and from `settle` on what came of it.
    fn put(&mut self, item: &str, words: &[&str]) -> Result<(), Fault> {
        if item == "settle" || self.answer.is_begun() {
            self.answer.put(item, words)
        } else {
            self.given.put(item, words)
        }
    }

    fn finish(self, heap: Global, number: u32) -> Result<Case, Fault> {
        let Open { given, answer } = self;
        let file = given.file(heap)?;
        let Given {
            pile,
            source,
            sizes,
            ..
        } = given;
        Ok(Case {
            number,
            pile: pile.ok_or(Fault::NotOnce)?,
            source,
            sizes: sizes.ok_or(Fault::NotOnce)?,
            file,
            answer: answer.finish()?,
        })
    }
}

// Reads the lines of a list one after the other. Its cases are numbered from 0, and its last line says how many they are.
#[derive(Drop)]
pub struct Reader {
    heap: Global,
    line: u64,
    cases: u32,
    open: Option<Open>,
    ended: bool,
}

impl Reader {
    pub fn new(heap: Global) -> Reader {
        Reader {
            heap,
            line: 0,
            cases: 0,
            open: None,
            ended: false,
        }
    }

    fn begin(&mut self, number: u32) -> Result<Option<Case>, Fault> {
        if number != self.cases {
            return Err(Fault::WrongNumber);
        }
        self.open = Some(Open::new(self.heap));
        Ok(None)
    }

    fn end(&mut self, count: u32) -> Result<Option<Case>, Fault> {
        if count != self.cases {
            return Err(Fault::WrongCount);
        }
        self.ended = true;
        Ok(None)
    }

    // A line between cases.
    fn put_between(&mut self, words: &[&str]) -> Result<Option<Case>, Fault> {
        match words {
            ["case", number] => self.begin(read_number(number)?),
            ["cases", count] => self.end(read_number(count)?),
            _ => Err(Fault::OutOfPlace),
        }
    }

    // A line of a case, which `end` ends.
    fn put_within(&mut self, mut open: Open, words: &[&str]) -> Result<Option<Case>, Fault> {
        match words {
            ["end"] => {
                let case = open.finish(self.heap, self.cases)?;
                self.cases = self.cases.checked_add(1).ok_or(Fault::TooLong)?;
                Ok(Some(case))
            }
            [item, rest @ ..] => {
                open.put(item, rest)?;
                self.open = Some(open);
                Ok(None)
            }
            [] => Err(Fault::OutOfPlace),
        }
    }

    fn put_words(&mut self, words: &[&str]) -> Result<Option<Case>, Fault> {
        if self.ended {
            return Err(Fault::OutOfPlace);
        }
        match self.open.take() {
            Some(open) => self.put_within(open, words),
            None => self.put_between(words),
        }
    }

    // The next line, and the case that it ends. One that begins with # is a comment. After an error nothing more is to be read.
    pub fn put_line(&mut self, line: &str) -> Result<Option<Case>, ListError> {
        self.line = self.line.saturating_add(1);
        if line.starts_with('#') {
            return Ok(None);
        }
        let read = self.put_split(line);
        let line = self.line;
        read.map_err(|fault| ListError { line, fault })
    }

    fn put_split(&mut self, line: &str) -> Result<Option<Case>, Fault> {
        let words = split(self.heap, line)?;
        self.put_words(words.as_slice())
    }

    // Whether the list has come to its end.
    pub fn finish(self) -> Result<u32, ListError> {
        if self.ended {
            Ok(self.cases)
        } else {
            Err(ListError {
                line: self.line.saturating_add(1),
                fault: Fault::EndsTooSoon,
            })
        }
    }
}
