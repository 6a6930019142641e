// What C and Rust call: each function under a name with the prefix `hosirekar_`, for every input.
// It promises what the function below it promises, with jobs and answers carried over by the
// definitions of `boundary`. The archive that is linked is `exports_c`, which hands these on.
#![tactic(auto)]

pub mod cheap;
pub mod columns;
pub mod files;
mod lists;
pub mod loading;
pub mod maps;
pub mod merging;
pub mod numbers;
pub mod plane;
pub mod stored;
pub mod texture;
