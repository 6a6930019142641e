// The symbols that C and Rust link. No crate may stand on a static library, so each function here only calls that of its
// name in `exports`, and states its clauses again word for word: what is proved of `exports` holds of the archive.
#![tactic(auto)]

pub mod cheap;
pub mod columns;
pub mod files;
pub mod loading;
pub mod maps;
pub mod merging;
pub mod numbers;
pub mod plane;
pub mod stored;
pub mod texture;
