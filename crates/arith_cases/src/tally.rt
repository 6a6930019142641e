// What was compared so far.
ghost use Rattle.std.specs.Prelude.{◌≡◌};
ghost use Rattle.arith_cases.specs.Counting.{nothing_yet, compared};

// A case: the numbers that tell it, what was made of them and what the record has.
#[derive(Clone, Copy)]
pub(crate) struct Case<const N: usize> {
    pub of: [u32; N],
    pub made: u32,
    pub recorded: u32,
}

// How many cases were compared, how many differ, and the first that does.
#[derive(Clone, Copy)]
pub(crate) struct Tally<const N: usize> {
    pub count: u64,
    pub differ: u64,
    pub first: Option<Case<N>>,
}

impl<const N: usize> Default for Tally<N> {
    fn default() -> Self
        ensures { result ≡ nothing_yet }
    {
        Tally {
            count: 0,
            differ: 0,
            first: None,
        }
    }
}

impl<const N: usize> Tally<N> {
    // The tally with one case more. Counts stop at the greatest number, so that a count of differences
    // never comes back to 0.
    pub(crate) fn with_case(self, case: Case<N>) -> Self
        ensures { result ≡ compared self.entry case.entry }
    {
        let count = self.count.saturating_add(1);
        if case.made == case.recorded {
            return Tally { count, ..self };
        }
        Tally {
            count,
            differ: self.differ.saturating_add(1),
            first: self.first.or(Some(case)),
        }
    }
}
