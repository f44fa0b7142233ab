// The figures of very many stages of one sheet: what is known of a set serves for the next that is like it.
#![tactic(auto)]

mod known;
mod memos;
mod splits;
mod vertices;

pub use memos::StageMemo;
