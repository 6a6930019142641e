// The mesh functions of hexx's mod.rs over lent buffers: what is done to a stored mesh; and what is told of the faces of
// a job of any kind. Every function takes every input.
#![tactic(auto)]

mod put;
pub mod stored;
pub mod windows;
