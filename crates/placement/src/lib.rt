// How a face is to look and where it is to stand. Every function takes every input.
#![tactic(auto)]

pub mod options;
pub mod placement;
