// The piles of folders of a list.
use crate::faults::Fault;
use crate::words::read_byte;
use std::num::NonZeroU8;

// What a trap faults on, and with which code.
#[derive(Clone, Copy, PartialEq, Eq, Debug)]
pub struct Sprung {
    pub kind: u8,
    pub code: NonZeroU8,
}

// The folders from the bottom, which is Keep, upwards.
#[derive(Clone, Copy, PartialEq, Eq, Debug)]
pub enum Pile {
    Keep,
    KeepWhole,
    KeepFind,
    KeepWholeFind,
    KeepFindWhole,
    KeepPadding,
    KeepPaddingWhole,
    KeepPaddingFind,
    KeepTrap(Sprung),
    KeepWholeTrap(Sprung),
    KeepTrapWhole(Sprung),
    KeepWholeFindTrap(Sprung),
    KeepWholeTrapFind(Sprung),
}

// A trap, as trap:KIND:CODE.
fn read_trap(word: &str) -> Option<Sprung> {
    let rest = word.strip_prefix("trap:")?;
    let (kind, code) = rest.split_once(":")?;
    Some(Sprung {
        kind: read_byte(kind).ok()?,
        code: NonZeroU8::new(read_byte(code).ok()?)?,
    })
}

fn read_trapped(words: &[&str]) -> Option<Pile> {
    match words {
        ["keep", trap] => Some(Pile::KeepTrap(read_trap(trap)?)),
        ["keep", "whole", trap] => Some(Pile::KeepWholeTrap(read_trap(trap)?)),
        ["keep", trap, "whole"] => Some(Pile::KeepTrapWhole(read_trap(trap)?)),
        ["keep", "whole", "find", trap] => Some(Pile::KeepWholeFindTrap(read_trap(trap)?)),
        ["keep", "whole", trap, "find"] => Some(Pile::KeepWholeTrapFind(read_trap(trap)?)),
        _ => None,
    }
}

pub(crate) fn read_pile(words: &[&str]) -> Result<Pile, Fault> {
    match words {
        ["keep"] => Ok(Pile::Keep),
        ["keep", "whole"] => Ok(Pile::KeepWhole),
        ["keep", "find"] => Ok(Pile::KeepFind),
        ["keep", "whole", "find"] => Ok(Pile::KeepWholeFind),
        ["keep", "find", "whole"] => Ok(Pile::KeepFindWhole),
        ["keep", "padding"] => Ok(Pile::KeepPadding),
        ["keep", "padding", "whole"] => Ok(Pile::KeepPaddingWhole),
        ["keep", "padding", "find"] => Ok(Pile::KeepPaddingFind),
        _ => read_trapped(words).ok_or(Fault::BadPile),
    }
}
