// Walks tried under piles of folders. The crate has nothing but tests: `walking` itself knows no folder.
#![tactic(auto)]

#[cfg(test)]
mod tests;
