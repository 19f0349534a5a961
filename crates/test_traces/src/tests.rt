use crate::traced::traced;
use global_ptr::{FaultKind, ProgFault, Standing};
use std::test::Fail;
use trace_check::{Verdict, Why};

/// A program of one step.
const ONE_STEP: &str = "int main() { return 0; }";

/// One thread reads a remote sync variable, and another has it written.
const REMOTE_READ: &str = "global class Box { public: sync int v; };
global class Hand { public: void give(Box *global b, int n) { b->v = n; } };
int main() {
  Box *global b = new Box();
  Hand *global h = new Hand();
  sync int got;
  par { got = b->v; h->give(b, 9); }
  cout << got << endl;
  return got;
}";

/// The entries of a run of it, up to the request that writes the variable.
const UNTIL_WRITTEN: &str = "make 520204ffffffff000000000000000000000000
run 0 0 1
make 520204ffffffff000000000000000000010000
run 0 0 3
run 0 1 1
run 0 2 2
serve 2 520201000000020000000000000002000000000000000203000000010000000000000000010000000000000009
run 2 0 3
serve 1 5202030000000100000002000000000000000000000000010000000000000009
";

/// The request that writes the variable.
const WRITES: &str = "serve 1 5202030000000100000002000000000000000000000000010000000000000009\n";

/// The entries behind it.
const FROM_READ: &str = "serve 1 5202020000000100000000000000010000000000000000
run 0 1 1
run 2 0 1
run 0 2 1
run 0 0 5
end done 9
";

/// The message that reads the variable, in version 1.
const READS_1: &str = "serve 1 5201020000000100000000000000010000000000000000\n";

/// A thread waits for a variable that none writes.
const WAITS: &str = "int main() { sync int x; return x; }";

/// A division by what main is given.
const DIVIDES: &str = "int main(int n) { return 1 / n; }";

fn no(entry: u64, why: Why) -> Verdict {
    Verdict::No { entry, why }
}

fn done(value: i64) -> Verdict {
    Verdict::Yes(Standing::Done(value))
}

#[test]
fn a_run_of_one_step(rt: HostRuntime) -> Result<(), Fail> {
    let table = [
        ("run 0 0 1\nend done 0\n", done(0)),
        ("run 0 1 1\nend done 0\n", no(0, Why::NoThread)),
        ("run 0 0 2\nend done 0\n", no(0, Why::NoThread)),
        ("run 0 0 1\nrun 0 0 1\nend done 0\n", no(1, Why::NoThread)),
        ("run 0 0 1\nend done 1\n", no(1, Why::OtherEnd)),
        ("end done 0\n", no(0, Why::OtherEnd)),
        ("end limit 0\n", Verdict::Yes(Standing::Limit(0))),
        ("run 0 0 1\nend limit 1\n", no(1, Why::OtherEnd)),
        ("serve 0 52\nend done 0\n", no(0, Why::NoThread)),
        (
            "serve 1 5201020000000100000000000000010000000000000000\nend done 0\n",
            no(0, Why::NoThread),
        ),
        (
            "serve 1 5201020000000100000000000000000000000000000000\nend done 0\n",
            no(0, Why::OtherRequest),
        ),
    ];
    for (lines, verdict) in table {
        let found = traced(rt.alloc(), ONE_STEP, &[], lines)?;
        assert_eq!(rt; found, verdict, "{lines}");
    }
    Ok(())
}

#[test]
fn a_remote_read(rt: HostRuntime) -> Result<(), Fail> {
    let table = [
        ("", FROM_READ, done(9)),
        (WRITES, FROM_READ, no(9, Why::OtherRequest)),
        (READS_1, "end done 9\n", no(9, Why::OtherRequest)),
        ("run 0 1 1\n", "end done 9\n", no(9, Why::NotEnabled)),
        ("end limit 14\n", "", Verdict::Yes(Standing::Limit(14))),
        ("end limit 13\n", "", no(9, Why::OtherEnd)),
        ("end blocked 4\n", "", no(9, Why::OtherEnd)),
    ];
    for (more, rest, verdict) in table {
        let lines = format!(in rt.alloc(); "{UNTIL_WRITTEN}{more}{rest}")?;
        let found = traced(rt.alloc(), REMOTE_READ, &[], lines.as_str())?;
        assert_eq!(rt; found, verdict, "{lines}");
    }
    Ok(())
}

#[test]
fn a_thread_that_waits(rt: HostRuntime) -> Result<(), Fail> {
    let table = [
        ("end blocked 1\n", Verdict::Yes(Standing::Blocked(1))),
        ("end blocked 0\n", no(1, Why::OtherEnd)),
        ("end done 0\n", no(1, Why::OtherEnd)),
        ("run 0 0 1\nend blocked 1\n", no(1, Why::NotEnabled)),
        // After one step no thread can move.
        ("end limit 1\n", no(1, Why::OtherEnd)),
    ];
    for (lines, verdict) in table {
        let lines = format!(in rt.alloc(); "run 0 0 1\n{lines}")?;
        let found = traced(rt.alloc(), WAITS, &[], lines.as_str())?;
        assert_eq!(rt; found, verdict, "{lines}");
    }
    Ok(())
}

#[test]
fn a_fault(rt: HostRuntime) -> Result<(), Fail> {
    let fault = ProgFault {
        kind: FaultKind::DivideByZero,
        line: 1,
    };
    let table = [
        (
            "run 0 0 1\nend fault DivideByZero line 1 by 0 0\n",
            Verdict::Yes(Standing::Fault(fault)),
        ),
        (
            "run 0 0 1\nend fault DivideByZero line 2 by 0 0\n",
            no(1, Why::OtherEnd),
        ),
        (
            "run 0 0 1\nend fault DivideByZero line 1 by 0 1\n",
            no(1, Why::OtherEnd),
        ),
        (
            "run 0 0 18446744073709551615\nend done 0\n",
            no(0, Why::Faults),
        ),
    ];
    for (lines, verdict) in table {
        let found = traced(rt.alloc(), DIVIDES, &[0], lines)?;
        assert_eq!(rt; found, verdict, "{lines}");
    }
    Ok(())
}
