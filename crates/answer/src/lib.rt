// What a call answers, and the tests that come before a mesh is made. Every function takes every
// input.
#![tactic(auto)]

pub mod answer;
pub mod check;
