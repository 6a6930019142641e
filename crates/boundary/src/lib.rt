// What stands between the mesher and a caller from C: structs with a layout of C's, jobs carried over
// from them and answers carried over to them, by the definitions of specs/FromC.antt and
// specs/ToC.antt.
#![tactic(auto)]

pub mod from_c;
pub mod jobs;
pub mod to_c;
