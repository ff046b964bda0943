// The piles of folders that can be named.

// The folders from the bottom, which is Keep, upwards.
#[derive(Clone, Copy, PartialEq, Eq, Debug)]
pub enum Pile {
    Keep,
    KeepWhole,
    KeepFind,
    KeepWholeFind,
    KeepFindWhole,
}

impl Pile {
    // The pile that a word names, by its folders from the bottom.
    pub fn named(word: &str) -> Option<Pile> {
        match word {
            "keep" => Some(Pile::Keep),
            "keep,whole" => Some(Pile::KeepWhole),
            "keep,find" => Some(Pile::KeepFind),
            "keep,whole,find" => Some(Pile::KeepWholeFind),
            "keep,find,whole" => Some(Pile::KeepFindWhole),
            _ => None,
        }
    }
}
