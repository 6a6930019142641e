// Faces by value: points, texture options, quads and hexagons, and what an inset of them is. Every function
// takes every number, infinities and NaNs too.
#![tactic(auto)]

pub mod face;
pub mod inset;
pub mod triangle;
pub mod uv_mapping;
pub mod vec;
