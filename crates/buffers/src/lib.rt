// Four lent buffers as one thing: a face is laid into them at a place, whole or not at all.
#![tactic(auto)]

pub mod laying;
pub mod plain;
