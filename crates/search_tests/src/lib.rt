// One search serves several kinds of key: tags, counts with server numbers, and rows with phases, which are keys of their own crate.
#![tactic(auto)]

mod load;
mod tag;
#[cfg(test)]
mod tests;

pub use load::Load;
pub use tag::Tag;
