// Replays recorded cheap columns, planes, columns, merges and points through the crates' public calls, and tells of each
// kind how many differ from the record and which is the first.
#![tactic(auto)]

mod calls;
mod job;
mod merges;
mod points;

use calls::{CheapJob, ColumnJob, PlaneJob};
use job::{Places, Words};
use record::cases::Cases;
use record::jobs::Job;
use record::lists::ReadLists;
use std::io::Read;

#[derive(Clone, Copy)]
enum Kind {
    Cheap,
    Planes,
    Columns,
    Merges,
    Points,
    Wraps,
}

// The kinds, in the record's order.
const KINDS: [Kind; 6] = [
    Kind::Cheap,
    Kind::Planes,
    Kind::Columns,
    Kind::Merges,
    Kind::Points,
    Kind::Wraps,
];

impl Cases for Kind {
    fn is_right<R: Read>(self, from: &mut R) -> bool {
        match self {
            Kind::Cheap => CheapJob(Words::read(from, &mut Places::new())).are_runs_right(from),
            Kind::Planes => PlaneJob(Words::read(from, &mut Places::new())).are_runs_right(from),
            Kind::Columns => ColumnJob(Words::read(from, &mut Places::new())).are_runs_right(from),
            Kind::Merges => merges::is_merge(from),
            Kind::Points => points::is_point(from),
            Kind::Wraps => points::is_wrap(from),
        }
    }
}

fn main(rt: HostRuntime) {
    Kind::replay_all(&KINDS, &mut rt.stdin().ahead(), &rt);
}
