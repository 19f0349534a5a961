//! Tests of `effect_journal` and `trace_check`: texts that are read and written again, texts that are refused, and texts of version 1
//! that are rewritten in version 2.

use crate::crossing::crosses_threads;
use ccpp_edge::{Bytes, List};
use effect_journal::{
    Entry, JournalFault, Version, next_line, read_entry, read_journal, read_journal_1, write_entry,
    write_header,
};
use global_ptr::Standing;
use std::alloc::{AllocError, Global};
use std::test::Fail;
use trace_check::migrate;

#[test]
fn types_cross_threads(rt: HostRuntime) {
    let end = Entry::End {
        standing: Standing::Done(0),
        by: None,
    };
    crosses_threads(&end);
    crosses_threads(&List::<Entry>::new(rt.alloc()));
    crosses_threads(&JournalFault::NoEnd);
}

/// A journal of these lines.
fn journal(alloc: Global, lines: &str) -> Result<Bytes, AllocError> {
    let mut text = Bytes::new(alloc);
    write_header(alloc, &mut text)?;
    text.extend_from_slice(lines.as_bytes())?;
    Ok(text)
}

/// A text of these lines behind the first line of version 1.
fn journal_1(alloc: Global, lines: &str) -> Result<Bytes, AllocError> {
    let mut text = Bytes::from_slice(alloc, b"ccpp journal 1\n")?;
    text.extend_from_slice(lines.as_bytes())?;
    Ok(text)
}

/// The text of a text's entries.
fn written_again(alloc: Global, text: &[u8]) -> Result<Bytes, Fail> {
    let entries = read_journal(alloc, text)?;
    let mut again = journal(alloc, "")?;
    for entry in entries.as_slice() {
        write_entry(alloc, &mut again, entry)?;
    }
    Ok(again)
}

/// How many entries a text of the version has.
fn count(alloc: Global, version: Version, text: &[u8]) -> Result<usize, JournalFault> {
    let entries = match version {
        Version::One => read_journal_1(alloc, text)?,
        Version::Two => read_journal(alloc, text)?,
    };
    Ok(entries.len())
}

#[test]
fn what_is_read_is_written_again(rt: HostRuntime) -> Result<(), Fail> {
    let alloc = rt.alloc();
    let spelled = [
        ("end done 0\n", 1),
        ("end done -9223372036854775808\n", 1),
        ("end done 9223372036854775807\n", 1),
        ("end blocked 0\n", 1),
        ("end limit 18446744073709551615\n", 1),
        ("end fault CallDepth line 4294967295 by 63 1048575\n", 1),
        (
            "run 0 4294967295 18446744073709551615\nserve 7 005eff\nmake 00\nend limit 0\n",
            4,
        ),
    ];
    for (lines, entries) in spelled {
        let text = journal(alloc, lines)?;
        let again = written_again(alloc, text.as_slice())?;
        assert_eq!(rt; again.as_slice(), text.as_slice(), "{lines}");
        let text = journal_1(alloc, lines)?;
        assert_eq!(rt;
            count(alloc, Version::One, text.as_slice()),
            Ok(entries),
            "{lines}"
        );
    }
    Ok(())
}

#[test]
fn a_line_that_is_not_spelled_is_named(rt: HostRuntime) -> Result<(), Fail> {
    let alloc = rt.alloc();
    let (line_2, line_3) = (
        JournalFault::Line { line: 2 },
        JournalFault::Line { line: 3 },
    );
    let refused = [
        ("\n", &line_2),
        ("run 0 0\n", &line_2),
        ("run 0 0 1 \n", &line_2),
        ("run 0  0 1\n", &line_2),
        ("run 0 0 0\n", &line_2),
        ("run 0 0 01\n", &line_2),
        ("run +0 0 1\n", &line_2),
        ("run 0 4294967296 1\n", &line_2),
        ("run 0 0 18446744073709551616\n", &line_2),
        ("make \n", &line_2),
        ("make 0\n", &line_2),
        ("make 0A\n", &line_2),
        ("serve 0a\n", &line_2),
        ("end done -0\n", &line_2),
        ("end done 9223372036854775808\n", &line_2),
        ("end done 0 by 0 0\n", &line_2),
        ("end fault CallDepth line 1\n", &line_2),
        ("end fault callDepth line 1 by 0 0\n", &line_2),
        ("end done 0\n\n", &line_3),
        ("end done 0\nend done 0\n", &line_3),
        ("end done 0\nx", &line_3),
        ("", &JournalFault::NoEnd),
        ("end done 0", &JournalFault::NoEnd),
        ("run 0 0 1\n", &JournalFault::NoEnd),
        ("run 0 0 1\nend", &JournalFault::NoEnd),
    ];
    for (lines, fault) in refused {
        let text = journal(alloc, lines)?;
        let answer = count(alloc, Version::Two, text.as_slice());
        assert_eq!(rt; answer.err().as_ref(), Some(fault), "{lines}");
        let text = journal_1(alloc, lines)?;
        let answer = count(alloc, Version::One, text.as_slice());
        assert_eq!(rt; answer.err().as_ref(), Some(fault), "{lines}");
    }
    Ok(())
}

#[test]
fn each_version_has_its_first_line_and_its_longest_request(rt: HostRuntime) -> Result<(), Fail> {
    let alloc = rt.alloc();
    let first = b"ccpp journal 1\nend done 0\n";
    let second = b"ccpp journal 2\nend done 0\n";
    assert_eq!(rt;
        count(alloc, Version::Two, first),
        Err(JournalFault::Line { line: 1 })
    );
    assert_eq!(rt;
        count(alloc, Version::One, second),
        Err(JournalFault::Line { line: 1 })
    );
    assert_eq!(rt;
        count(alloc, Version::Two, &second[..14]),
        Err(JournalFault::NoEnd)
    );

    let cases = [
        (Version::One, 126, Ok(2)),
        (Version::One, 127, Err(JournalFault::Line { line: 2 })),
        (Version::Two, 53_271, Ok(2)),
        (Version::Two, 53_272, Err(JournalFault::Line { line: 2 })),
    ];
    for (version, bytes, answer) in cases {
        let mut text = Bytes::from_slice(alloc, version.header())?;
        text.extend_from_slice(b"\nmake ")?;
        for _ in 0..bytes {
            text.extend_from_slice(b"5e")?;
        }
        text.extend_from_slice(b"\nend done 0\n")?;
        assert_eq!(rt; count(alloc, version, text.as_slice()), answer, "{bytes}");
    }
    Ok(())
}

#[test]
fn a_text_is_read_line_by_line(rt: HostRuntime) -> Result<(), Fail> {
    let text = b"end done 7\nend";
    let Some((line, rest)) = next_line(text) else {
        return Err(Fail::from("a line"));
    };
    assert_eq!(rt; (line, rest), (b"end done 7".as_slice(), b"end".as_slice()));
    assert!(rt; read_entry(rt.alloc(), Version::One, line)?.is_some());
    assert!(rt; next_line(rest).is_none());
    Ok(())
}

const FIRST: &str = "\
make 520104ffffffff0000000000000000000000
run 0 0 1
make 520104ffffffff0000000000000000000100
run 0 2 2
serve 2 5201010000000200000000000000020000000000000203000000010000000000000000010000000000000009
serve 1 5201030000000100000002000000000000000000000000010000000000000009
serve 1 5201020000000100000000000000010000000000000000
end done 9
";

const SECOND: &str = "\
ccpp journal 2
make 520204ffffffff000000000000000000000000
run 0 0 1
make 520204ffffffff000000000000000000010000
run 0 2 2
serve 2 520201000000020000000000000002000000000000000203000000010000000000000000010000000000000009
serve 1 5202030000000100000002000000000000000000000000010000000000000009
serve 1 5202020000000100000000000000010000000000000000
end done 9
";

#[test]
fn a_journal_of_version_1_is_rewritten(rt: HostRuntime) -> Result<(), Fail> {
    let alloc = rt.alloc();
    let first = journal_1(alloc, FIRST)?;
    let new = migrate(alloc, first.as_slice())?;
    assert_eq!(rt; new.as_slice(), SECOND.as_bytes());
    let again = migrate(alloc, SECOND.as_bytes())?;
    assert_eq!(rt; again.as_slice(), SECOND.as_bytes());

    let (line_1, line_2, line_3) = (
        JournalFault::Line { line: 1 },
        JournalFault::Line { line: 2 },
        JournalFault::Line { line: 3 },
    );
    let refused = [
        ("ccpp journal 3\nend done 0\n", line_1),
        (
            "ccpp journal 1\nmake 00\nrun\n",
            JournalFault::Line { line: 2 },
        ),
        (
            "ccpp journal 1\nmake 520204ffffffff000000000000000000000000\n",
            line_2,
        ),
        (
            "ccpp journal 1\nrun 0 0 1\nmake 520104ffffffff000000000000000000000000\n",
            line_3,
        ),
        (
            "ccpp journal 2\nrun 0 0 0\n",
            JournalFault::Line { line: 2 },
        ),
        ("ccpp journal 2\nmake 00\n", JournalFault::NoEnd),
        (
            "ccpp journal 1\nmake 520104ffffffff0000000000000000000000\n",
            JournalFault::NoEnd,
        ),
        ("ccpp journal 1", JournalFault::NoEnd),
    ];
    for (text, fault) in refused {
        assert_eq!(rt;
            migrate(alloc, text.as_bytes()).err(),
            Some(fault),
            "{text}"
        );
    }
    Ok(())
}
