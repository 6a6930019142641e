// Compares the square root and the fused multiply-add of `arith` with a record of the C library's
// answers, bit by bit, and writes how many differ.
#![tactic(auto)]

mod cell;
mod record;
mod report;
mod tally;

use std::io::Read;
use tally::{Case, Tally};

// How many patterns the grid has, and so the cells of the record's longest line.
const PATTERNS: usize = 50;

fn root_case(x: u32, recorded: u32) -> Case<1> {
    let made = patterns::pattern(arith::root(patterns::float(x)));
    Case {
        of: [x],
        made,
        recorded,
    }
}

fn fused_case(a: u32, b: u32, c: u32, recorded: u32) -> Case<3> {
    let made = patterns::pattern(arith::fused(
        patterns::float(a),
        patterns::float(b),
        patterns::float(c),
    ));
    Case {
        of: [a, b, c],
        made,
        recorded,
    }
}

fn roots(input: &mut impl Read) -> Option<Tally<1>> {
    let mut tally = Tally::default();
    for _ in 0..record::count(input, b"roots    ")? {
        let [x, recorded]: [u32; 2] = record::line(input)?;
        tally = tally.with_case(root_case(x, recorded));
    }
    Some(tally)
}

// A line of the grid: the results at a, b and each pattern.
fn with_grid_line(
    tally: Tally<3>,
    a: u32,
    b: u32,
    patterns: &[u32; PATTERNS],
    input: &mut impl Read,
) -> Option<Tally<3>> {
    let mut tally = tally;
    let results: [u32; PATTERNS] = record::line(input)?;
    for (c, recorded) in patterns.iter().zip(&results) {
        tally = tally.with_case(fused_case(a, b, *c, *recorded));
    }
    Some(tally)
}

// The lines of the grid at one pattern.
fn with_grid_lines(
    tally: Tally<3>,
    a: u32,
    patterns: &[u32; PATTERNS],
    input: &mut impl Read,
) -> Option<Tally<3>> {
    let mut tally = tally;
    for b in patterns {
        tally = with_grid_line(tally, a, *b, patterns, input)?;
    }
    Some(tally)
}

// The lines of every pair of patterns, in their order.
fn grid(input: &mut impl Read) -> Option<Tally<3>> {
    if record::count(input, b"patterns ")? as usize != PATTERNS {
        return None;
    }
    let patterns: [u32; PATTERNS] = record::line(input)?;
    let mut tally = Tally::default();
    for a in &patterns {
        tally = with_grid_lines(tally, *a, &patterns, input)?;
    }
    Some(tally)
}

fn with_triples(tally: Tally<3>, input: &mut impl Read) -> Option<Tally<3>> {
    let mut tally = tally;
    for _ in 0..record::count(input, b"triples  ")? {
        let [a, b, c, recorded]: [u32; 4] = record::line(input)?;
        tally = tally.with_case(fused_case(a, b, c, recorded));
    }
    Some(tally)
}

// The whole record, with nothing after it.
fn compared(input: &mut impl Read) -> Option<(Tally<1>, Tally<3>)> {
    let of_root = roots(input)?;
    let of_fused = with_triples(grid(input)?, input)?;
    record::ended(input).then_some((of_root, of_fused))
}

fn main(rt: HostRuntime) {
    match compared(&mut rt.stdin()) {
        Some((of_root, of_fused)) => report::report(&rt, &of_root, &of_fused),
        None => {
            let _ = println!(rt; "the record does not read");
        }
    }
}
