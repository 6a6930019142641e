// Replays recorded height maps and stored meshes through the crates' public calls, and tells of each kind how many
// differ from the record and which is the first.
#![tactic(auto)]

mod job;
mod stored;

use record::cases::Cases;
use record::lists::ReadLists;
use std::io::Read;

// Maps whose cells are listed, maps of many cells, and stored meshes.
#[derive(Clone, Copy)]
enum Kind {
    Maps,
    Limits,
    Stored,
}

// The kinds, in the record's order.
const KINDS: [Kind; 3] = [Kind::Maps, Kind::Limits, Kind::Stored];

impl Cases for Kind {
    fn is_right<R: Read>(self, from: &mut R) -> bool {
        match self {
            Kind::Maps => job::is_listed(from),
            Kind::Limits => job::is_of_many(from),
            Kind::Stored => stored::is_stored(from),
        }
    }
}

fn main(rt: HostRuntime) {
    Kind::replay_all(&KINDS, &mut rt.stdin().ahead(), &rt);
}
