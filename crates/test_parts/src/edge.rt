//! Tests of `ccpp_edge`: lists, text and boxes, and files and outputs in memory and of the system.

use ccpp_edge::{
    Boxed, Bytes, Gate, List, MemShelf, MemSink, NamedBytes, OpenGate, RealShelf, RealSink, Shelf,
    ShelfFault, Sink, Text,
};
use std::alloc::{AllocError, Global};
use std::fs;
use std::test::Fail;

const SOURCE: &[u8] = b"int main() { return 0; }";

#[test]
fn lists_and_text(rt: HostRuntime) -> Result<(), Fail> {
    let mut list = List::from_slice(rt.alloc(), &[1u64, 2])?;
    list.push(3)?;
    list.extend_from_slice(&[4, 5])?;
    list.append(List::from_vec(vec![in rt.alloc(); 6u64]?))?;
    assert_eq!(rt; list.pop(), Some(6u64));
    assert_eq!(rt; list.len(), 5);
    list.set(0, 9);
    assert_eq!(rt; list.replace(1, 8), 2);
    list.truncate(3);
    assert_eq!(rt; list.as_slice(), [9, 8, 3].as_slice());
    assert_eq!(rt; list.get(2).copied(), Some(3));
    assert!(rt; !list.is_empty());
    let mut text = Text::of(rt.alloc(), "o")?;
    text.push('k')?;
    assert_eq!(rt; text.as_str(), "ok");
    assert_eq!(rt; text.len(), 2);
    assert_eq!(rt; Text::new(rt.alloc()).len(), 0);
    let boxed = Boxed::new(rt.alloc(), 7u64)?;
    assert_eq!(rt; *boxed.get(), 7);
    assert_eq!(rt; boxed.into_inner(), 7);
    Ok(())
}

/// A shelf that holds `f.cc`, and fails at one call.
fn shelf(alloc: Global, failing: u64) -> Result<MemShelf, AllocError> {
    let mut files = List::new(alloc);
    files.push(NamedBytes {
        name: Text::of(alloc, "f.cc")?,
        bytes: Bytes::from_slice(alloc, SOURCE)?,
    })?;
    Ok(MemShelf::new(alloc, files, List::from_slice(alloc, &[failing])?))
}

/// What is answered to reads of a held and a missing name, to a write of a new name and to a read of it.
fn answers(mut shelf: MemShelf) -> [Option<ShelfFault>; 4] {
    [
        shelf.read("f.cc").err(),
        shelf.read("g.cc").err(),
        shelf.write("j", b"CCPP").err(),
        shelf.read("j").err(),
    ]
}

#[test]
fn a_shelf_in_memory_fails_at_its_numbers(rt: HostRuntime) -> Result<(), Fail> {
    let absent = Some(ShelfFault::Absent);
    let failed = Some(ShelfFault::Failed);
    assert!(rt; answers(shelf(rt.alloc(), 0)?) == [failed, absent, None, None]);
    assert!(rt; answers(shelf(rt.alloc(), 1)?) == [None, failed, None, None]);
    assert!(rt; answers(shelf(rt.alloc(), 2)?) == [None, absent, failed, absent]);
    assert!(rt; answers(shelf(rt.alloc(), 4)?) == [None, absent, None, None]);
    let mut shelf = shelf(rt.alloc(), 4)?;
    shelf.write("f.cc", b"CCPP")?;
    assert!(rt; shelf.read("f.cc")?.as_slice() == b"CCPP".as_slice());
    Ok(())
}

fn written(alloc: Global, failing: u64) -> Result<MemSink, AllocError> {
    let mut sink = MemSink::new(alloc, List::from_slice(alloc, &[failing])?);
    let _ = sink.write_all(b"one");
    let _ = sink.write_all(b"two");
    Ok(sink)
}

#[test]
fn a_sink_in_memory_fails_at_its_numbers(rt: HostRuntime) -> Result<(), Fail> {
    assert!(rt; written(rt.alloc(), 0)?.bytes() == b"two".as_slice());
    assert!(rt; written(rt.alloc(), 1)?.bytes() == b"one".as_slice());
    assert!(rt; written(rt.alloc(), 2)?.bytes() == b"onetwo".as_slice());
    Ok(())
}

#[test]
fn real_files_and_output(rt: HostRuntime) -> Result<(), Fail> {
    OpenGate.enter(0);
    let folder = "ccpp_edge_test";
    let _ = fs::remove_dir_all(&rt, folder);
    fs::create_dir(&rt, folder)?;
    let mut long = Bytes::new(rt.alloc());
    for _ in 0..20_000 {
        long.extend_from_slice(b"0123456789")?;
    }
    let mut shelf = RealShelf::new(rt.alloc(), &rt);
    shelf.write("ccpp_edge_test/long", long.as_slice())?;
    assert_eq!(rt;
        shelf.read("ccpp_edge_test/long")?.as_slice(),
        long.as_slice()
    );
    shelf.write("ccpp_edge_test/long", b"short")?;
    assert_eq!(rt;
        shelf.read("ccpp_edge_test/long")?.as_slice(),
        b"short".as_slice()
    );
    let refused = [
        shelf.read("ccpp_edge_test/none").map(|_| ()),
        shelf.read(folder).map(|_| ()),
        shelf.write(folder, b"no file"),
        shelf.write("ccpp_edge_test/none/none", b"no folder"),
    ];
    let failed = Err(ShelfFault::Failed);
    assert_eq!(rt; refused, [Err(ShelfFault::Absent), failed, failed, failed]);
    fs::remove_dir_all(&rt, folder)?;
    RealSink::new(&rt).write_all(b"a line to the standard output\n")?;
    Ok(())
}
