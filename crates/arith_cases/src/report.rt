// The report of what was compared. Each piece is written by itself: what cannot be written is lost, and the rest is written
// all the same.
use crate::tally::{Case, Tally};

fn print_pattern(rt: &impl Print, before: &str, pattern: u32) {
    let _ = print!(rt; "{before}");
    let _ = print!(rt; "{pattern:08x}");
}

fn print_number(rt: &impl Print, before: &str, number: u64) {
    let _ = print!(rt; "{before}");
    let _ = print!(rt; "{number}");
}

fn print_case<const N: usize>(rt: &impl Print, name: &str, case: Case<N>) {
    let mut before = name;
    for x in &case.of {
        print_pattern(rt, before, *x);
        before = " ";
    }
    print_pattern(rt, " is ", case.made);
    print_pattern(rt, ", not ", case.recorded);
    let _ = print!(rt; "\n");
}

fn print_first<const N: usize>(rt: &impl Print, name: &str, tally: &Tally<N>) {
    if let Some(case) = tally.first {
        print_case(rt, name, case);
    }
}

fn print_counts<const N: usize>(rt: &impl Print, name: &str, tally: &Tally<N>) {
    print_number(rt, name, tally.count);
    print_number(rt, ", differ ", tally.differ);
    let _ = print!(rt; "\n");
}

// Writes the first difference of each kind, if there is one, and the counts.
pub(crate) fn report(rt: &impl Print, of_root: &Tally<1>, of_fused: &Tally<3>) {
    print_first(rt, "root of ", of_root);
    print_first(rt, "fused ", of_fused);
    print_counts(rt, "roots ", of_root);
    print_counts(rt, "fused ", of_fused);
}
