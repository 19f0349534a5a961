ghost use Rattle.std.specs.Prelude.{◌≡◌, ◌≤◌, ◌==◌};
ghost use Rattle.std.specs.List.{list_any};
ghost use Rattle.ccpp_edge.specs.Count.{Rose, raised};

use crate::List;

/// Counts the calls of a shelf or a sink in memory, of which those with the given numbers, from 0, are to fail.
#[derive(Debug, Drop)]
pub(crate) struct Calls {
    failing: List<u64>,
    made: u64,
    faults: u64,
}

impl Calls {
    ghost use Rattle.ccpp_edge.specs.Fake.{next_fails, counted};

    /// No call yet, and no fault.
    pub(crate) fn new(failing: List<u64>) -> Calls
        ensures { result ≡ record { failing = failing; made = 0; faults = 0 } }
    {
        Calls {
            failing,
            made: 0,
            faults: 0,
        }
    }

    /// Counts a call, and says whether it is to fail.
    pub(crate) fn next_fails(&mut self) -> bool
        ensures fails { result ≡ next_fails self.old }
        ensures counted { self.new ≡ counted self.old }
    {
        let fails = is_among(self.failing.as_slice(), self.made);
        raise(&mut self.made);
        if fails {
            raise(&mut self.faults);
        }
        fails
    }
}

fn is_among(numbers: &[u64], number: u64) -> bool
    ensures { result ≡ list_any (λ one. one == number) numbers.now }
{
    numbers.iter().any(|one| *one == number)
}

/// Raises a count, which stays at its last value once it is there.
pub(crate) fn raise(count: &mut u64)
    ensures exact { count.new ≡ raised count.old }
    ensures rose { Rose count.old count.new }
    ensures never_falls { count.old ≤ count.new }
{
    *count = count.saturating_add(1);
}
