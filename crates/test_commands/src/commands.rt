//! Tests of `ccpp_top`: what each command writes, its status, and the calls that fail.

use ccpp_edge::{Bytes, List, MemShelf, MemSink, NamedBytes, OpenGate, Text};
use ccpp_top::{Status, Word, ccpp};
use std::alloc::{AllocError, Global};
use std::test::Fail;
use std::thread::Threads;

const NEVER: u64 = u64::MAX;

/// Words, parted by blanks, to which `ccpp` is called with a shelf that holds the source as `f.cc`. The shelf and the sink fail at the
/// calls with these numbers.
#[derive(Clone, Copy)]
struct Case {
    words: &'static str,
    source: &'static str,
    shelf_fails: u64,
    sink_fails: u64,
}

impl Case {
    /// With no call that fails.
    fn of(words: &'static str, source: &'static str) -> Case {
        Case {
            words,
            source,
            shelf_fails: NEVER,
            sink_fails: NEVER,
        }
    }
}

fn words_of(alloc: Global, words: &str) -> Result<List<Word>, AllocError> {
    let mut list = List::new(alloc);
    for word in words.split_whitespace() {
        list.push(Word::new(alloc, word)?)?;
    }
    Ok(list)
}

fn shelf_of(alloc: Global, source: &str, fails: u64) -> Result<MemShelf, AllocError> {
    let mut files = List::new(alloc);
    files.push(NamedBytes {
        name: Text::of(alloc, "f.cc")?,
        bytes: Bytes::from_slice(alloc, source.as_bytes())?,
    })?;
    Ok(MemShelf::new(alloc, files, List::from_slice(alloc, &[fails])?))
}

/// What is written, and the status.
fn answer<R: Threads + Sync>(
    rt: &R,
    alloc: Global,
    case: &Case,
) -> Result<(Bytes, Status), AllocError> {
    let words = words_of(alloc, case.words)?;
    let mut shelf = shelf_of(alloc, case.source, case.shelf_fails)?;
    let mut sink = MemSink::new(alloc, List::from_slice(alloc, &[case.sink_fails])?);
    let status = ccpp(
        rt,
        alloc,
        words.as_slice(),
        &mut shelf,
        &mut sink,
        &OpenGate,
    );
    Ok((Bytes::from_slice(alloc, sink.bytes())?, status))
}

const EMPTY: &str = "int main() { return 0; }";

/// Two statements of a `par`, of which one waits for the other.
const SYNC: &str =
    "int main() { sync int x; sync int y; par { y = x + 1; x = 3; } cout << y << endl; return y; }";

const QUOTIENT: &str = "int main(int a, int b) { return a / b; }";

/// The literal 0 in 63 pairs of parentheses, and in 64.
const DEEP: &str =
    "int main() { return (((((((((((((((((((((((((((((((((((((((((((((((((((((((((((((((0))))))))))))))))))))))))))))))))))))))))))))))))))))))))))))))); }";

const TOO_DEEP: &str =
    "int main() { return ((((((((((((((((((((((((((((((((((((((((((((((((((((((((((((((((0)))))))))))))))))))))))))))))))))))))))))))))))))))))))))))))))); }";

#[test]
fn runs_are_reported(rt: HostRuntime) -> Result<(), Fail> {
    for (words, source, text, status) in [
        (
            "run f.cc",
            EMPTY,
            "== done 0\n== determinate\n",
            Status::Done,
        ),
        ("trace f.cc f.cc", EMPTY, "no end\n", Status::No),
        ("trace f.cc j", EMPTY, "no file j\n", Status::NoFile),
        (
            "load 10",
            EMPTY,
            "load 10\n19 45\n== done 64\n== determinate\n",
            Status::Done,
        ),
        (
            "run f.cc",
            SYNC,
            "4\n== done 4\n== determinate\n",
            Status::Done,
        ),
        (
            "run f.cc --steps 12",
            SYNC,
            "4\n== done 4\n== determinate\n",
            Status::Done,
        ),
        (
            "run f.cc --steps 11",
            SYNC,
            "4\n== limit 11\n== determinate\n",
            Status::Limit,
        ),
        (
            "run f.cc --seed 7",
            SYNC,
            "4\n== done 4\n== determinate\n",
            Status::Done,
        ),
        (
            "run f.cc",
            "int main() { sync int x; return x; }",
            "== blocked 1\n== determinate\n",
            Status::Blocked,
        ),
        (
            "run f.cc",
            "int main() { sync int x; par { cout << x << endl; x = 3; } return x; }",
            "3\n== done 3\n== shared PrintInBranch line 1\n",
            Status::Done,
        ),
        (
            "run f.cc",
            "int main() { cout << \"a\\n\" << 0 - 3; }",
            "a\n-3\n== done 0\n== determinate\n",
            Status::Done,
        ),
        (
            "run f.cc",
            "int main() { return 9223372036854775807 + 1; }",
            "== fault Overflow line 1\n== determinate\n",
            Status::ProgramFault,
        ),
        (
            "run f.cc",
            DEEP,
            "== done 0\n== determinate\n",
            Status::Done,
        ),
        (
            "run f.cc -7 2",
            QUOTIENT,
            "== done -3\n== determinate\n",
            Status::Done,
        ),
        (
            "run f.cc 7 0",
            QUOTIENT,
            "== fault DivideByZero line 1\n== determinate\n",
            Status::ProgramFault,
        ),
        (
            "run f.cc -9223372036854775808 -1",
            QUOTIENT,
            "== fault Overflow line 1\n== determinate\n",
            Status::ProgramFault,
        ),
    ] {
        let (written, ended) = answer(&rt, rt.alloc(), &Case::of(words, source))?;
        assert_eq!(rt; written.as_slice(), text.as_bytes(), "{source}");
        assert!(rt; ended == status, "{source}");
    }
    Ok(())
}

#[test]
fn runs_are_refused(rt: HostRuntime) -> Result<(), Fail> {
    for (words, source, text, status) in [
        (
            "run f.cc",
            "",
            "refused type NoMain line 1\n",
            Status::SourceRefused,
        ),
        (
            "run f.cc 1 2",
            "int main() {\n a * b; }",
            "refused type UnknownClass line 2\n",
            Status::SourceRefused,
        ),
        (
            "run f.cc",
            "int main() { int a; a + 1; }",
            "refused parse Syntax at 9 line 1\n",
            Status::SourceRefused,
        ),
        (
            "run f.cc",
            TOO_DEEP,
            "refused parse TooDeep at 69 line 1\n",
            Status::SourceRefused,
        ),
        (
            "run f.cc",
            "int main() {\n",
            "refused parse Syntax at 5 line 1\n",
            Status::SourceRefused,
        ),
        (
            "run f.cc",
            "int main() { return 9223372036854775808; }",
            "refused lex NumberTooLarge at 20\n",
            Status::SourceRefused,
        ),
        (
            "run f.cc 5",
            EMPTY,
            "main takes 0, got 1\n",
            Status::IntCount,
        ),
        (
            "run f.cc",
            QUOTIENT,
            "main takes 2, got 0\n",
            Status::IntCount,
        ),
        (
            "run f.cc --seed 18446744073709551615 --steps 1000000000 1 -9223372036854775808 0 4 5 6 7 8",
            QUOTIENT,
            "main takes 2, got 8\n",
            Status::IntCount,
        ),
    ] {
        let (written, ended) = answer(&rt, rt.alloc(), &Case::of(words, source))?;
        assert_eq!(rt; written.as_slice(), text.as_bytes(), "{words}");
        assert!(rt; ended == status, "{words}");
    }
    Ok(())
}

#[test]
fn sources_are_checked(rt: HostRuntime) -> Result<(), Fail> {
    for (words, source, text, status) in [
        ("check f.cc", EMPTY, "ok\n", Status::Done),
        (
            "check f.cc",
            "int main() { par { return 1; } }",
            "refused type ReturnInBranch line 1\n",
            Status::SourceRefused,
        ),
        (
            "check f.cc",
            "int main() { int a[65537]; }",
            "refused type ArrayLength line 1\n",
            Status::SourceRefused,
        ),
        ("share f.cc", EMPTY, "determinate\n", Status::Done),
        (
            "share f.cc",
            "int main() {\n  par { cout << 1; }\n}",
            "shared PrintInBranch line 2\n",
            Status::Done,
        ),
        (
            "code f.cc",
            EMPTY,
            "function main\n0 push 0\n1 ret\n2 push 0\n3 ret\n",
            Status::Done,
        ),
        (
            "share f.cc",
            "int main() {",
            "refused parse Syntax at 5 line 1\n",
            Status::SourceRefused,
        ),
    ] {
        let (written, ended) = answer(&rt, rt.alloc(), &Case::of(words, source))?;
        assert_eq!(rt; written.as_slice(), text.as_bytes(), "{source}");
        assert!(rt; ended == status, "{source}");
    }
    Ok(())
}

/// Words that no command has, and the place at which they are refused.
const WRONG: [(&str, &str); 30] = [
    ("", "words refused at 1\n"),
    ("walk f.cc", "words refused at 1\n"),
    ("run", "words refused at 2\n"),
    ("run -f", "words refused at 2\n"),
    ("message", "words refused at 2\n"),
    ("check f.cc 5", "words refused at 3\n"),
    ("run f.cc --steps=5", "words refused at 3\n"),
    ("run f.cc 1 --seed 2", "words refused at 4\n"),
    ("run f.cc --steps", "words refused at 4\n"),
    ("run f.cc --steps 0", "words refused at 4\n"),
    ("run f.cc --steps 1000000001", "words refused at 4\n"),
    ("run f.cc --steps 5 --steps 6", "words refused at 5\n"),
    ("run f.cc --steps 5 --seed", "words refused at 6\n"),
    (
        "run f.cc --seed 18446744073709551616",
        "words refused at 4\n",
    ),
    ("run f.cc --seed -1", "words refused at 4\n"),
    ("run f.cc 9223372036854775808", "words refused at 3\n"),
    ("run f.cc -9223372036854775809", "words refused at 3\n"),
    ("run f.cc 1 -0", "words refused at 4\n"),
    ("run f.cc 01", "words refused at 3\n"),
    ("run f.cc +1", "words refused at 3\n"),
    ("run f.cc 1 2 3 x", "words refused at 6\n"),
    ("run f.cc 1 2 3 4 5 6 7 8 9", "words refused at 11\n"),
    ("trace", "words refused at 2\n"),
    ("trace f.cc", "words refused at 3\n"),
    ("trace f.cc -j", "words refused at 3\n"),
    ("trace f.cc j 1 2 3 4 5 6 7 8 9", "words refused at 12\n"),
    ("load", "words refused at 2\n"),
    ("load 0", "words refused at 2\n"),
    ("load 10001", "words refused at 2\n"),
    ("load 10 f.cc", "words refused at 3\n"),
];

#[test]
fn words_are_refused(rt: HostRuntime) -> Result<(), Fail> {
    for (words, text) in WRONG {
        let (written, ended) = answer(&rt, rt.alloc(), &Case::of(words, EMPTY))?;
        assert_eq!(rt; written.as_slice(), text.as_bytes(), "{words}");
        assert!(rt; ended == Status::WordsRefused, "{words}");
    }
    for words in ["run g.cc", "message g.cc"] {
        let (written, ended) = answer(&rt, rt.alloc(), &Case::of(words, EMPTY))?;
        assert_eq!(rt; written.as_slice(), "no file g.cc\n".as_bytes(), "{words}");
        assert!(rt; ended == Status::NoFile, "{words}");
    }
    Ok(())
}

#[test]
fn failing_calls_are_named(rt: HostRuntime) -> Result<(), Fail> {
    let report = "== done 0\n== determinate\n";
    for (shelf_fails, sink_fails, text, status) in [
        (0, NEVER, "read fault\n", Status::ReadFault),
        (NEVER, 0, "", Status::WriteFault),
        (1, 1, report, Status::Done),
    ] {
        let case = Case {
            words: "run f.cc",
            source: EMPTY,
            shelf_fails,
            sink_fails,
        };
        let (written, ended) = answer(&rt, rt.alloc(), &case)?;
        assert_eq!(rt; written.as_slice(), text.as_bytes());
        assert!(rt; ended == status);
    }
    assert_eq!(rt; Status::IntCount.number(), 11);
    assert_eq!(rt; Word::new(rt.alloc(), "f.cc")?.as_text(), "f.cc");
    Ok(())
}

#[test]
fn messages_are_listed(rt: HostRuntime) -> Result<(), Fail> {
    for (source, text, status) in [
        ("", "== messages 0\n", Status::Done),
        (
            "R\x01\x05\0\0\0\0\0\0\0\x01\0\0\0\x05\0",
            "reply to 0 from 1 ticket 5 void\n== messages 1\n",
            Status::Done,
        ),
        (
            "R\x01\x05\0\0\0\0\0\0\0\x01\0\0\0\x05\x04",
            "no BadTag at 15\n",
            Status::No,
        ),
        (
            "R\x01\x05\0\0\0\0\0\0\0\x01\0\0\0\x05\0R\x01",
            "no Short at 18\n",
            Status::No,
        ),
    ] {
        let (written, ended) = answer(&rt, rt.alloc(), &Case::of("message f.cc", source))?;
        assert_eq!(rt; written.as_slice(), text.as_bytes());
        assert!(rt; ended == status);
    }
    Ok(())
}

#[test]
fn journals_are_migrated(rt: HostRuntime) -> Result<(), Fail> {
    for (source, text, status) in [
        (
            "ccpp journal 1\nmake 520104ffffffff0000000000000000000000\nrun 0 0 1\nend done 0\n",
            "ccpp journal 2\nmake 520204ffffffff000000000000000000000000\nrun 0 0 1\nend done 0\n",
            Status::Done,
        ),
        (
            "ccpp journal 1\nmake 52\nend done 0\n",
            "no line 2\n",
            Status::No,
        ),
        ("ccpp journal 1\nrun 0 0 1\n", "no end\n", Status::No),
    ] {
        let (written, ended) = answer(&rt, rt.alloc(), &Case::of("migrate f.cc", source))?;
        assert_eq!(rt; written.as_slice(), text.as_bytes());
        assert!(rt; ended == status);
    }
    Ok(())
}
