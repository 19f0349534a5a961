//! Tests of `cc_parser`: a whole program, and where a text is refused.

use cc_lexer::lex;
use cc_parser::{ParseFault, line_at, parse};
use cc_tree::{Item, Program};
use std::alloc::{AllocError, Global};
use std::test::Fail;

fn place(fault: ParseFault) -> u32 {
    match fault {
        ParseFault::Syntax { at } | ParseFault::TooDeep { at } => at,
        ParseFault::Memory => 0,
    }
}

/// Why the text is refused, and in which line.
fn refusal(alloc: Global, text: &str) -> Result<Option<(ParseFault, u32)>, AllocError> {
    let Ok(tokens) = lex(alloc, text.as_bytes()) else {
        return Err(AllocError);
    };
    match parse(alloc, tokens.as_slice(), text.as_bytes()) {
        Ok(_) => Ok(None),
        Err(fault) => Ok(Some((fault, line_at(tokens.as_slice(), place(fault))))),
    }
}

#[test]
fn refusals_have_a_place(rt: HostRuntime) -> Result<(), Fail> {
    for (text, at, line) in [
        ("int main() { int a; a + 1; }", 9, 1),
        ("int main() {\n  return 0;\n", 8, 2),
        ("int main() { return 0; } }", 9, 1),
        ("int\nx;", 2, 2),
        ("class C { void f(); };", 7, 1),
        ("int main() { new C(1); }", 5, 1),
    ] {
        assert_eq!(rt;
            refusal(rt.alloc(), text)?,
            Some((ParseFault::Syntax { at }, line))
        );
    }
    Ok(())
}

/// How many members the class has, and the line of the function, where these items stand behind a constant.
fn members_and_line(program: &Program) -> Option<(usize, u32)> {
    match program.items.as_slice() {
        [Item::Const { .. }, Item::Class(class), Item::Func(main)] => {
            Some((class.members.len(), main.line))
        }
        _ => None,
    }
}

#[test]
fn a_program_is_read(rt: HostRuntime) -> Result<(), Fail> {
    let text =
        "const int n = 2;\nclass P {\npublic: int k, l[2];\n  P(int a) { k = a; }\n  atomic void add(int a) { k += a; }\n};\nint main() { return n; }\n";
    let Ok(tokens) = lex(rt.alloc(), text.as_bytes()) else {
        return Err(AllocError.into());
    };
    let Ok(program) = parse(rt.alloc(), tokens.as_slice(), text.as_bytes()) else {
        return Err(AllocError.into());
    };
    assert_eq!(rt; members_and_line(&program), Some((4, 7)));
    Ok(())
}
