//! Tests of `rsr_message`: the bytes and lines of messages of both versions, their faults, and streams and files of them.

use crate::crossing::crosses_threads;
use ccpp_edge::{Bytes, List};
use rsr_message::{
    Body, FeedFault, ListFault, MessageFault, Request, Splitter, decode, encode, list_messages,
    message_line,
};
use std::alloc::{AllocError, Global};
use std::test::Fail;

#[test]
fn types_cross_threads(rt: HostRuntime) {
    crosses_threads(&List::<Request>::new(rt.alloc()));
    crosses_threads(&List::<Body>::new(rt.alloc()));
    crosses_threads(&Splitter::new(rt.alloc()));
    crosses_threads(&MessageFault::Short);
    crosses_threads(&FeedFault::Memory);
}

/// The messages of a request in version 1 and in version 2, and its line.
struct Case {
    first: &'static [u8],
    second: &'static [u8],
    line: &'static str,
}

static CASES: [Case; 8] = [
    Case {
        first: b"\x52\x01\x02\x00\x00\x00\x01\x00\x00\x00\x00\x00\x00\x00\x05\x00\x00\x00\x02\x00\x00\x00\x03",
        second: b"\x52\x02\x02\x00\x00\x00\x01\x00\x00\x00\x00\x00\x00\x00\x05\x00\x00\x00\x02\x00\x00\x00\x03",
        line: "get to 1 from 0 ticket 5 object 2 offset 3\n",
    },
    Case {
        first: b"\x52\x01\x05\x00\x00\x00\x00\x00\x00\x00\x01\x00\x00\x00\x05\x00",
        second: b"\x52\x02\x05\x00\x00\x00\x00\x00\x00\x00\x01\x00\x00\x00\x05\x00",
        line: "reply to 0 from 1 ticket 5 void\n",
    },
    Case {
        first: b"\x52\x01\x05\x00\x00\x00\x00\xff\xff\xff\xff\x00\x00\x00\x05\x03\x00\x00\x00\x01\x00\x00\x00\x00\x00\x00\x00\x00",
        second: b"\x52\x02\x05\x00\x00\x00\x00\xff\xff\xff\xff\x00\x00\x00\x05\x03\x00\x00\x00\x01\x00\x00\x00\x00\x00\x00\x00\x00",
        line: "reply to 0 from 4294967295 ticket 5 1:0:0\n",
    },
    Case {
        first: b"\x52\x01\x01\x00\x00\x00\x01\x00\x00\x00\x00\x00\x00\x00\x05\x00\x00\x00\x02\x01\x02\x03\x01\xff\xff\xff\xff\xff\xff\xff\xfe\x02\x03\x00\x00\x00\x01\x00\x00\x02\x03\xff\xff\xff\xff",
        second: b"\x52\x02\x01\x00\x00\x00\x01\x00\x00\x00\x00\x00\x00\x00\x05\x00\x00\x00\x02\x01\x02\x00\x03\x01\xff\xff\xff\xff\xff\xff\xff\xfe\x02\x03\x00\x00\x00\x01\x00\x00\x02\x03\xff\xff\xff\xff",
        line: "call to 1 from 0 ticket 5 object 2 handler 258 (-2, null, 1:515:4294967295)\n",
    },
    Case {
        first: b"\x52\x01\x03\x00\x00\x00\x01\x00\x00\x00\x00\x00\x00\x00\x05\x00\x00\x00\x02\x00\x00\x00\x03\x01\x80\x00\x00\x00\x00\x00\x00\x00",
        second: b"\x52\x02\x03\x00\x00\x00\x01\x00\x00\x00\x00\x00\x00\x00\x05\x00\x00\x00\x02\x00\x00\x00\x03\x01\x80\x00\x00\x00\x00\x00\x00\x00",
        line: "put to 1 from 0 ticket 5 object 2 offset 3 -9223372036854775808\n",
    },
    Case {
        first: b"\x52\x01\x04\xff\xff\xff\xff\x00\x00\x00\x00\x00\x00\x00\x06\x00\x01\x01\x01\x7f\xff\xff\xff\xff\xff\xff\xff",
        second: b"\x52\x02\x04\xff\xff\xff\xff\x00\x00\x00\x00\x00\x00\x00\x06\x00\x01\x00\x01\x01\x7f\xff\xff\xff\xff\xff\xff\xff",
        line: "make to 4294967295 from 0 ticket 6 class 1 (9223372036854775807)\n",
    },
    Case {
        first: b"\x52\x01\x06\x00\x00\x00\x01\x00\x00\x00\x00\x00\x00\x00\x07\x00\x00\x00\x00\x00\x09\x00",
        second: b"\x52\x02\x06\x00\x00\x00\x01\x00\x00\x00\x00\x00\x00\x00\x07\x00\x00\x00\x00\x00\x09\x00\x00",
        line: "cast to 1 from 0 ticket 7 object 0 handler 9 ()\n",
    },
    Case {
        first: b"\x52\x01\x06\x00\x00\x00\x02\x00\x00\x00\x01\x00\x00\x00\x00\x00\x00\x00\x00\x00\x00\x02\x02\x02",
        second: b"\x52\x02\x06\x00\x00\x00\x02\x00\x00\x00\x01\x00\x00\x00\x00\x00\x00\x00\x00\x00\x00\x00\x02\x02\x02",
        line: "cast to 2 from 1 ticket 0 object 0 handler 0 (null, null)\n",
    },
];

/// Messages of each kind.
fn cases() -> &'static [Case] {
    &CASES
}

/// How many bytes the message has with which the bytes begin.
fn message_len(alloc: Global, bytes: &[u8]) -> Result<usize, MessageFault> {
    let (_, len) = decode(alloc, bytes)?;
    Ok(len)
}

/// The bytes that are written of the request that is read from a message, and behind them its line.
fn bytes_and_line(alloc: Global, message: &[u8]) -> Result<Bytes, Fail> {
    let (request, _) = decode(alloc, message)?;
    let mut out = Bytes::new(alloc);
    encode(&request, &mut out)?;
    message_line(alloc, &request, &mut out)?;
    Ok(out)
}

#[test]
fn a_request_has_its_bytes_and_its_line(rt: HostRuntime) -> Result<(), Fail> {
    let alloc = rt.alloc();
    for Case {
        first,
        second,
        line,
    } in cases() {
        let mut wanted = Bytes::from_slice(alloc, second)?;
        wanted.extend_from_slice(line.as_bytes())?;
        for message in [*first, *second] {
            let out = bytes_and_line(alloc, message)?;
            assert_eq!(rt; out.as_slice(), wanted.as_slice(), "{line}");
            assert_eq!(rt; message_len(alloc, message), Ok(message.len()), "{line}");
        }
    }
    Ok(())
}

static REFUSED: [(&[u8], MessageFault); 20] = [
    (b"", MessageFault::Short),
    (b"\x52\x02", MessageFault::Short),
    (
        b"\x52\x02\x02\x00\x00\x00\x01\x00\x00\x00\x00\x00\x00\x00\x05\x00\x00\x00\x02\x00\x00\x00",
        MessageFault::Short,
    ),
    (b"\x51", MessageFault::BadMagic),
    (b"\x52\x00", MessageFault::BadVersion),
    (b"\x52\x03", MessageFault::BadVersion),
    (b"\x52\x02\x00", MessageFault::BadKind),
    (b"\x52\x01\x07", MessageFault::BadKind),
    (
        b"\x52\x01\x01\x00\x00\x00\x01\x00\x00\x00\x00\x00\x00\x00\x05\x00\x00\x00\x02\x01\x02\x09",
        MessageFault::BadCount { at: 21 },
    ),
    (
        b"\x52\x01\x04\xff\xff\xff\xff\x00\x00\x00\x00\x00\x00\x00\x06\x00\x01\x09",
        MessageFault::BadCount { at: 17 },
    ),
    (
        b"\x52\x02\x01\x00\x00\x00\x01\x00\x00\x00\x00\x00\x00\x00\x05\x00\x00\x00\x02\x01\x02\x10",
        MessageFault::Short,
    ),
    (
        b"\x52\x02\x01\x00\x00\x00\x01\x00\x00\x00\x00\x00\x00\x00\x05\x00\x00\x00\x02\x01\x02\x11",
        MessageFault::BadCount { at: 21 },
    ),
    (
        b"\x52\x02\x01\x00\x00\x00\x01\x00\x00\x00\x00\x00\x00\x00\x05\x00\x00\x00\x02\x01\x02\x10\x01",
        MessageFault::BadCount { at: 22 },
    ),
    (
        b"\x52\x02\x04\xff\xff\xff\xff\x00\x00\x00\x00\x00\x00\x00\x06\x00\x01\xff\x00",
        MessageFault::BadCount { at: 17 },
    ),
    (
        b"\x52\x02\x04\xff\xff\xff\xff\x00\x00\x00\x00\x00\x00\x00\x06\x00\x01\x10\xff",
        MessageFault::BadCount { at: 18 },
    ),
    (
        b"\x52\x02\x01\x00\x00\x00\x01\x00\x00\x00\x00\x00\x00\x00\x05\x00\x00\x00\x02\x01\x02\x00\x02\x00",
        MessageFault::BadTag { at: 23 },
    ),
    (
        b"\x52\x02\x01\x00\x00\x00\x01\x00\x00\x00\x00\x00\x00\x00\x05\x00\x00\x00\x02\x01\x02\x00\x02\x02\x04",
        MessageFault::BadTag { at: 24 },
    ),
    (
        b"\x52\x01\x01\x00\x00\x00\x01\x00\x00\x00\x00\x00\x00\x00\x05\x00\x00\x00\x02\x01\x02\x01\x00",
        MessageFault::BadTag { at: 22 },
    ),
    (
        b"\x52\x02\x03\x00\x00\x00\x01\x00\x00\x00\x00\x00\x00\x00\x05\x00\x00\x00\x02\x00\x00\x00\x03\x00",
        MessageFault::BadTag { at: 23 },
    ),
    (
        b"\x52\x02\x05\x00\x00\x00\x00\x00\x00\x00\x01\x00\x00\x00\x05\x04",
        MessageFault::BadTag { at: 15 },
    ),
];

#[test]
fn bytes_are_refused_at_their_first_wrong_one(rt: HostRuntime) {
    for (bytes, fault) in REFUSED.iter() {
        assert_eq!(rt; message_len(rt.alloc(), bytes), Err(*fault), "{bytes:?}");
    }
}

/// A call of so many addresses in version 2.
fn call_of(alloc: Global, high: u8, low: u8, values: u32) -> Result<Bytes, Fail> {
    let mut message = Bytes::from_slice(
        alloc,
        b"\x52\x02\x01\x00\x00\x00\x01\x00\x00\x00\x00\x00\x00\x00\x05\x00\x00\x00\x02\x01\x02",
    )?;
    message.push(high)?;
    message.push(low)?;
    for _ in 0..values {
        message.extend_from_slice(b"\x03\x00\x00\x00\x01\x00\x00\x00\x02\x00\x00\x00\x03")?;
    }
    Ok(message)
}

#[test]
fn the_longest_message_has_53271_bytes(rt: HostRuntime) -> Result<(), Fail> {
    let alloc = rt.alloc();
    let longest = call_of(alloc, 0x10, 0, 4096)?;
    assert_eq!(rt; message_len(alloc, longest.as_slice()), Ok(53_271));
    let longer = call_of(alloc, 0x10, 1, 4097)?;
    assert_eq!(rt;
        message_len(alloc, longer.as_slice()),
        Err(MessageFault::BadCount { at: 22 })
    );

    let [front @ .., last] = longest.as_slice() else {
        return Err(AllocError.into());
    };
    let mut splitter = Splitter::new(alloc);
    let mut requests = List::new(alloc);
    splitter.feed(alloc, front, &mut requests)?;
    assert_eq!(rt; splitter.rest().len(), 53_270);
    splitter.feed(alloc, &[*last], &mut requests)?;
    assert_eq!(rt; requests.len(), 1);
    Ok(())
}

/// The lines of requests.
fn lines_of(alloc: Global, requests: &[Request]) -> Result<Bytes, Fail> {
    let mut lines = Bytes::new(alloc);
    for request in requests {
        message_line(alloc, request, &mut lines)?;
    }
    Ok(lines)
}

/// All messages, one after another, those of a request in both versions, and all lines.
fn all(alloc: Global) -> Result<(Bytes, Bytes), Fail> {
    let mut messages = Bytes::new(alloc);
    let mut lines = Bytes::new(alloc);
    for Case {
        first,
        second,
        line,
    } in cases() {
        messages.extend_from_slice(first)?;
        messages.extend_from_slice(second)?;
        lines.extend_from_slice(line.as_bytes())?;
        lines.extend_from_slice(line.as_bytes())?;
    }
    Ok((messages, lines))
}

#[test]
fn a_stream_of_both_versions_may_be_cut_anywhere(rt: HostRuntime) -> Result<(), Fail> {
    let alloc = rt.alloc();
    let (stream, lines) = all(alloc)?;
    for cut in 0..=stream.len() {
        let (front, back) = stream.as_slice().split_at(cut);
        let mut splitter = Splitter::new(alloc);
        let mut requests = List::new(alloc);
        splitter.feed(alloc, front, &mut requests)?;
        splitter.feed(alloc, back, &mut requests)?;
        assert!(rt; splitter.rest().is_empty());
        let text = lines_of(alloc, requests.as_slice())?;
        assert_eq!(rt; text.as_slice(), lines.as_slice(), "cut at {cut}");
    }
    Ok(())
}

const GET: &[u8] =
    b"\x52\x02\x02\x00\x00\x00\x01\x00\x00\x00\x00\x00\x00\x00\x05\x00\x00\x00\x02\x00\x00\x00\x03";

#[test]
fn a_stream_is_closed_at_its_first_wrong_byte(rt: HostRuntime) -> Result<(), Fail> {
    let alloc = rt.alloc();
    let mut splitter = Splitter::new(alloc);
    let mut requests = List::new(alloc);
    splitter.feed(alloc, &GET[..22], &mut requests)?;
    assert_eq!(rt; requests.len(), 0);
    splitter.feed(alloc, b"\x03\x52\x01", &mut requests)?;
    assert_eq!(rt; requests.len(), 1);
    assert_eq!(rt; splitter.rest(), b"\x52\x01".as_slice());
    let (at, fault) = (25, MessageFault::BadKind);
    assert_eq!(rt;
        splitter.feed(alloc, b"\x07", &mut requests),
        Err(FeedFault::Bad { at, fault })
    );
    assert_eq!(rt;
        splitter.feed(alloc, b"\x02", &mut requests),
        Err(FeedFault::Closed { at, fault })
    );
    assert_eq!(rt; splitter.rest(), b"\x52\x01".as_slice());
    assert_eq!(rt; requests.len(), 1);
    Ok(())
}

#[test]
fn a_file_is_listed_or_its_first_fault_is_named(rt: HostRuntime) -> Result<(), Fail> {
    let alloc = rt.alloc();
    let (file, lines) = all(alloc)?;
    let listing = list_messages(alloc, file.as_slice())?;
    assert_eq!(rt; listing.messages, 2 * cases().len());
    assert_eq!(rt; listing.lines.as_slice(), lines.as_slice());
    assert_eq!(rt; list_messages(alloc, b"")?.messages, 0);

    let mut cut = Bytes::from_slice(alloc, GET)?;
    cut.extend_from_slice(&GET[..22])?;
    let (fault, at) = (MessageFault::Short, 45);
    assert_eq!(rt;
        list_messages(alloc, cut.as_slice()).err(),
        Some(ListFault::No { fault, at })
    );
    cut.set(24, 3);
    let (fault, at) = (MessageFault::BadVersion, 24);
    assert_eq!(rt;
        list_messages(alloc, cut.as_slice()).err(),
        Some(ListFault::No { fault, at })
    );
    Ok(())
}
