//! Tests of `thread_table`: how many threads and frames there are, operands, and branches that wake their parent.

ghost use Rattle.std.specs.Prelude.{IsTrue, IsSome, OnOk};
ghost use Rattle.thread_table.specs.Table.{IsLive, level_at};

use crate::crossing::crosses_threads;
use ccpp_edge::List;
use global_ptr::{Ready, Value, Waiter};
use std::alloc::Global;
use std::test::Fail;
use thread_table::{
    Asker, Frame, FrameFault, MOST_INSIDE, MOST_THREADS, ThreadFault, ThreadState, Threads,
};

#[test]
fn types_cross_threads(rt: HostRuntime) {
    crosses_threads(&frame(rt.alloc(), 0));
    crosses_threads(&ThreadFault::Memory);
    crosses_threads(&FrameFault::Deep);
    crosses_threads(&ThreadState::Gone);
    crosses_threads(&Threads::new(rt.alloc()));
}

/// The frame of an entered function without variables.
fn frame(alloc: Global, code: u32) -> Frame
    ensures { IsTrue result.entered }
{
    Frame {
        code,
        object: Value::Void,
        vars: List::new(alloc),
        atomic: false,
        entered: true,
    }
}

/// The frame of a function that is still to be called.
fn awaiting(alloc: Global, code: u32) -> Frame {
    Frame {
        entered: false,
        ..frame(alloc, code)
    }
}

#[test]
fn threads_are_counted(rt: HostRuntime) {
    let alloc = rt.alloc();
    let mut threads = Threads::new(alloc);
    let mut ready = Ready::new(alloc);
    for number in 0..MOST_THREADS {
        let made = threads.spawn(awaiting(alloc, 0), List::new(alloc), None, None, &mut ready);
        assert_eq!(rt; made, Ok(number));
    }
    assert_eq!(rt; threads.room(), 0);
    assert_eq!(rt; threads.live(), u64::from(MOST_THREADS));
    assert_eq!(rt; ready.spare(), 0);
    let full = threads.spawn(awaiting(alloc, 0), List::new(alloc), None, None, &mut ready);
    assert_eq!(rt; full, Err(ThreadFault::Full { made: MOST_THREADS }));
}

/// Lets a thread enter as many functions as it may be inside.
fn enter_all(alloc: Global, threads: &mut Threads, thread: u32) -> Result<(), FrameFault>
    requires { IsLive threads.old thread }
    ensures { IsLive threads.new thread }
{
    for code in 0..MOST_INSIDE {
        threads.push_frame(thread, frame(alloc, code))?;
    }
    Ok(())
}

#[test]
fn a_thread_is_inside_so_many_functions(rt: HostRuntime) -> Result<(), Fail> {
    let alloc = rt.alloc();
    let mut threads = Threads::new(alloc);
    let mut ready = Ready::new(alloc);
    let main = threads.spawn(awaiting(alloc, 7), List::new(alloc), None, None, &mut ready)?;
    enter_all(alloc, &mut threads, main)?;
    assert_eq!(rt;
        threads.push_frame(main, frame(alloc, 0)),
        Err(FrameFault::Deep)
    );
    Ok(())
}

/// Fails unless a thread lives.
fn live(threads: &Threads, thread: u32) -> Result<(), Fail>
    ensures { OnOk result (IsLive threads.now thread) }
{
    match threads.state(thread) {
        ThreadState::Gone => Err(Fail::new("it is gone")),
        _ => Ok(()),
    }
}

#[test]
fn a_thread_has_operands_and_frames(rt: HostRuntime) -> Result<(), Fail> {
    let alloc = rt.alloc();
    let mut threads = Threads::new(alloc);
    let mut ready = Ready::new(alloc);
    let asker = Some(Asker { from: 1, ticket: 4 });
    let thread = threads.spawn(
        awaiting(alloc, 7),
        List::new(alloc),
        None,
        asker,
        &mut ready,
    )?;
    live(&threads, thread)?;
    assert_eq!(rt; threads.asker(thread), asker);
    assert_eq!(rt; threads.pop_operand(thread), None);
    live(&threads, thread)?;
    threads.push_operand(thread, Value::Int(5))?;
    live(&threads, thread)?;
    assert_eq!(rt; threads.pop_operand(thread), Some(Value::Int(5)));
    live(&threads, thread)?;
    assert_eq!(rt; threads.pop_frame(thread).is_none(), true);
    Ok(())
}

/// Lets a thread enter a function.
fn enter(alloc: Global, threads: &mut Threads, thread: u32) -> Result<(), FrameFault>
    requires { IsLive threads.old thread }
    ensures { OnOk result (IsSome (level_at threads.new thread)) }
{
    threads.push_frame(thread, frame(alloc, 3))
}

/// Makes a branch of a thread's innermost frame.
fn fork(
    alloc: Global,
    threads: &mut Threads,
    parent: u32,
    ready: &mut Ready,
) -> Result<u32, ThreadFault>
    requires { IsSome (level_at threads.old parent) }
    ensures { OnOk result (IsSome (level_at threads.new parent)) }
{
    threads.spawn(
        frame(alloc, 10),
        List::new(alloc),
        Some(parent),
        None,
        ready,
    )
}

/// A thread that waits for two branches, whose numbers come with its own.
fn forked(
    alloc: Global,
    threads: &mut Threads,
    ready: &mut Ready,
) -> Result<(u32, u32, u32), Fail> {
    let parent = threads.spawn(awaiting(alloc, 7), List::new(alloc), None, None, ready)?;
    live(threads, parent)?;
    enter(alloc, threads, parent)?;
    let left = fork(alloc, threads, parent, ready)?;
    let right = fork(alloc, threads, parent, ready)?;
    threads.go(parent, 30);
    live(threads, parent)?;
    threads.block(parent, true);
    Ok((parent, left, right))
}

#[test]
fn the_last_branch_wakes_its_parent(rt: HostRuntime) -> Result<(), Fail> {
    let alloc = rt.alloc();
    let mut threads = Threads::new(alloc);
    let mut ready = Ready::new(alloc);
    let (parent, left, right) = forked(alloc, &mut threads, &mut ready)?;
    assert_eq!(rt; threads.state(parent), ThreadState::Parked);
    live(&threads, left)?;
    assert_eq!(rt; threads.finish(left), None);
    live(&threads, right)?;
    assert_eq!(rt; threads.finish(right), Some(parent));
    assert_eq!(rt; threads.state(right), ThreadState::Gone);
    assert_eq!(rt; threads.pick(&mut ready, 0), Some(Waiter::Thread(parent)));
    assert_eq!(rt; threads.state(parent), ThreadState::Ready);
    let next = threads.spawn(awaiting(alloc, 7), List::new(alloc), None, None, &mut ready);
    assert_eq!(rt; next, Ok(right + 1));
    Ok(())
}
