// What the programs that replay a record share: its words and what they stand for, the lists that are lent, the calls
// of a job, digests, and how many cases differ. The caller has the reader and the writer.
#![tactic(auto)]

pub mod ahead;
pub mod answers;
pub mod cases;
pub mod digest;
pub mod jobs;
pub mod lists;
pub mod placed;
pub mod words;
