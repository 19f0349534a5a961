use crate::report::{Trouble, walk_of};
use cc_walk::{Stepped, ThreadNo, Walk};
use ccpp_edge::Bytes;
use rsr_message::message_line;
use std::alloc::{AllocError, Global};
use std::test::Fail;

/// The walk at the start of a run of a source whose `main` takes no ints.
fn start(alloc: Global, source: &str) -> Result<Walk, Trouble> {
    walk_of(alloc, source.as_bytes(), &[])
}

/// Thread `thread` of processor `processor`.
fn no(processor: u32, thread: u32) -> ThreadNo {
    ThreadNo { processor, thread }
}

/// How many steps of a thread are made, one after another, up to so many.
fn moves(walk: &mut Walk, t: ThreadNo, count: u32) -> u32 {
    for made in 0..count {
        if walk.step(t) != Stepped::Moved {
            return made;
        }
    }
    count
}

/// The line of the request that a thread's next move posts, empty where it posts none.
fn asked(alloc: Global, walk: &Walk, t: ThreadNo) -> Result<Bytes, AllocError> {
    let mut line = Bytes::new(alloc);
    if let Some(request) = walk.asks(t)? {
        message_line(alloc, &request, &mut line)?;
    }
    Ok(line)
}

#[test]
fn a_thread_moves_waits_and_is_gone(rt: HostRuntime) -> Result<(), Fail> {
    let source =
        "int main() { sync int x; sync int y; par { y = x + 1; x = 3; } cout << y << endl; return y; }";
    let mut walk = start(rt.alloc(), source)?;
    let main = no(0, 0);
    for (t, stepped) in [
        (main, Stepped::Moved),
        (main, Stepped::Moved),
        (main, Stepped::Moved),
        (main, Stepped::Blocked),
        (no(0, 3), Stepped::Gone),
        (no(0, 1), Stepped::Blocked),
    ] {
        assert_eq!(rt; walk.step(t), stepped);
    }
    assert_eq!(rt; walk.enabled(), Some(no(0, 2)));
    assert_eq!(rt; walk.all_enabled()?.as_slice(), [no(0, 2)].as_slice());
    assert_eq!(rt; walk.threads_left(), 3);
    assert_eq!(rt; moves(&mut walk, no(0, 2), 1), 1);
    assert_eq!(rt; walk.step(no(0, 2)), Stepped::Gone);
    assert_eq!(rt; moves(&mut walk, no(0, 1), 3), 3);
    assert_eq!(rt; walk.main_value(), None);
    assert_eq!(rt; moves(&mut walk, main, 5), 5);
    assert_eq!(rt; walk.main_value(), Some(4));
    assert_eq!(rt; walk.threads_left(), 0);
    assert_eq!(rt; walk.enabled(), None);
    assert_eq!(rt; walk.output(), b"4\n".as_slice());
    Ok(())
}

/// Two branches that count to 4 each, in turns of 16 steps: two of their updates are lost.
#[test]
fn updates_can_be_lost(rt: HostRuntime) -> Result<(), Fail> {
    let source =
        "int main() { int n; par { for (int i = 0 + 0; i < 4; i++) n = n + 1; for (int i = 0 + 0; i < 4; i++) n = n + 1; } cout << n << endl; return n; }";
    let mut walk = start(rt.alloc(), source)?;
    moves(&mut walk, no(0, 0), 16);
    for _ in 0..4 {
        moves(&mut walk, no(0, 1), 16);
        moves(&mut walk, no(0, 2), 16);
    }
    moves(&mut walk, no(0, 0), 16);
    assert_eq!(rt; walk.output(), b"6\n".as_slice());
    Ok(())
}

/// A remote read that waits is filled by a third processor. Each entry is a thread, the line of what it asks before, and its steps.
#[test]
fn remote_moves_ask(rt: HostRuntime) -> Result<(), Fail> {
    let alloc = rt.alloc();
    let source = "global class Box { public: sync int v; };
global class Hand { public: void give(Box *global b, int n) { b->v = n; } };
int main() {
  Box *global b = new Box();
  Hand *global h = new Hand();
  sync int got;
  par { got = b->v; h->give(b, 9); }
  cout << got << endl;
  return got;
}";
    let mut walk = start(alloc, source)?;
    for (t, line, steps) in [
        (
            no(0, 0),
            "make to 4294967295 from 0 ticket 0 class 0 ()\n",
            1,
        ),
        (no(0, 0), "", 1),
        (
            no(0, 0),
            "make to 4294967295 from 0 ticket 0 class 1 ()\n",
            1,
        ),
        (no(0, 0), "", 3),
        (no(0, 1), "", 1),
        (no(0, 2), "", 2),
        (
            no(0, 2),
            "call to 2 from 0 ticket 2 object 0 handler 0 (1:0:0, 9)\n",
            1,
        ),
        (no(2, 0), "", 3),
        (
            no(2, 0),
            "put to 1 from 2 ticket 0 object 0 offset 0 9\n",
            1,
        ),
        (no(0, 1), "get to 1 from 0 ticket 1 object 0 offset 0\n", 1),
        (no(0, 1), "", 1),
        (no(2, 0), "", 1),
        (no(0, 2), "", 1),
        (no(0, 0), "", 5),
        (no(0, 0), "", 0),
    ] {
        assert_eq!(rt; asked(alloc, &walk, t)?.as_slice(), line.as_bytes());
        assert_eq!(rt; moves(&mut walk, t, steps), steps);
    }
    assert_eq!(rt; walk.main_value(), Some(9));
    Ok(())
}
