//! Tests of `cc_lexer`: each kind of token, blanks, faults, limits and escapes.

use cc_lexer::{Keyword, LexFault, MAX_TEXT, Mark, Token, TokenKind, lex, unescaped};
use std::test::Fail;

const KEYWORDS: [(&[u8], Keyword); 25] = [
    (b"atomic", Keyword::Atomic),
    (b"break", Keyword::Break),
    (b"class", Keyword::Class),
    (b"const", Keyword::Const),
    (b"continue", Keyword::Continue),
    (b"cout", Keyword::Cout),
    (b"else", Keyword::Else),
    (b"endl", Keyword::Endl),
    (b"for", Keyword::For),
    (b"global", Keyword::Global),
    (b"if", Keyword::If),
    (b"int", Keyword::Int),
    (b"new", Keyword::New),
    (b"NULL", Keyword::Null),
    (b"par", Keyword::Par),
    (b"parfor", Keyword::Parfor),
    (b"private", Keyword::Private),
    (b"public", Keyword::Public),
    (b"return", Keyword::Return),
    (b"spawn", Keyword::Spawn),
    (b"struct", Keyword::Struct),
    (b"sync", Keyword::Sync),
    (b"this", Keyword::This),
    (b"void", Keyword::Void),
    (b"while", Keyword::While),
];

const MARKS: [(&[u8], Mark); 35] = [
    (b"(", Mark::OpenParen),
    (b")", Mark::CloseParen),
    (b"{", Mark::OpenBrace),
    (b"}", Mark::CloseBrace),
    (b"[", Mark::OpenBracket),
    (b"]", Mark::CloseBracket),
    (b";", Mark::Semicolon),
    (b",", Mark::Comma),
    (b":", Mark::Colon),
    (b".", Mark::Dot),
    (b"=", Mark::Assign),
    (b"+", Mark::Plus),
    (b"-", Mark::Minus),
    (b"*", Mark::Star),
    (b"/", Mark::Slash),
    (b"%", Mark::Percent),
    (b"<", Mark::Less),
    (b">", Mark::Greater),
    (b"!", Mark::Not),
    (b"&", Mark::Ampersand),
    (b"->", Mark::Arrow),
    (b"==", Mark::Equal),
    (b"!=", Mark::NotEqual),
    (b"<=", Mark::LessEqual),
    (b">=", Mark::GreaterEqual),
    (b"&&", Mark::And),
    (b"||", Mark::Or),
    (b"<<", Mark::LessLess),
    (b"++", Mark::PlusPlus),
    (b"--", Mark::MinusMinus),
    (b"+=", Mark::PlusAssign),
    (b"-=", Mark::MinusAssign),
    (b"*=", Mark::StarAssign),
    (b"/=", Mark::SlashAssign),
    (b"%=", Mark::PercentAssign),
];

const OTHERS: [(&[u8], TokenKind); 11] = [
    (b"_", TokenKind::Name),
    (b"null", TokenKind::Name),
    (b"integer", TokenKind::Name),
    (b"x9_Z", TokenKind::Name),
    (b"0", TokenKind::Int(0)),
    (b"10", TokenKind::Int(10)),
    (b"9223372036854775807", TokenKind::Int(i64::MAX)),
    (b"\"\"", TokenKind::Str),
    (b"\"\t ~\x80\xff\"", TokenKind::Str),
    (b"\"\\n\\t\\\\\\\"\"", TokenKind::Str),
    (b"\"/* // */\"", TokenKind::Str),
];

const FAULTS: [(&[u8], LexFault); 30] = [
    (b"a \x00", LexFault::BadByte { at: 2 }),
    (b"\x7f", LexFault::BadByte { at: 0 }),
    (b"\x80", LexFault::BadByte { at: 0 }),
    (b"\xff", LexFault::BadByte { at: 0 }),
    (b"a|b", LexFault::BadByte { at: 1 }),
    (b"'a'", LexFault::BadByte { at: 0 }),
    (b"1.5e$", LexFault::BadByte { at: 4 }),
    (b"\\", LexFault::BadByte { at: 0 }),
    (b"#", LexFault::BadByte { at: 0 }),
    (b"\n #define x", LexFault::BadByte { at: 2 }),
    (b"# include <x>", LexFault::BadByte { at: 0 }),
    (b"a; #include <x>", LexFault::BadByte { at: 3 }),
    (b"/* */ #include <x>", LexFault::BadByte { at: 6 }),
    (b"\r#include <x>", LexFault::BadByte { at: 1 }),
    (b"/* ", LexFault::OpenComment { at: 0 }),
    (b"/*/", LexFault::OpenComment { at: 0 }),
    (b"/**", LexFault::OpenComment { at: 0 }),
    (b"int main() { /* }", LexFault::OpenComment { at: 13 }),
    (b"x \"abc", LexFault::OpenString { at: 2 }),
    (b"\"a\nb\"", LexFault::OpenString { at: 0 }),
    (b"\"a\\\"", LexFault::OpenString { at: 0 }),
    (b"\"a\rb\"", LexFault::BadByte { at: 2 }),
    (b"\"a\x7f\n", LexFault::BadByte { at: 2 }),
    (b"\"a\\x\"", LexFault::BadByte { at: 2 }),
    (b"\"a\\\n", LexFault::BadByte { at: 2 }),
    (b"\"a\\", LexFault::BadByte { at: 2 }),
    (b"9223372036854775808", LexFault::NumberTooLarge { at: 0 }),
    (
        b"- 18446744073709551616",
        LexFault::NumberTooLarge { at: 2 },
    ),
    (
        b"00x1 99999999999999999999;",
        LexFault::NumberTooLarge { at: 5 },
    ),
    (b"/* \" */ \"", LexFault::OpenString { at: 8 }),
];

fn token(kind: TokenKind, start: u32, end: u32, line: u32) -> Token {
    Token {
        kind,
        start,
        end,
        line,
    }
}

#[test]
fn each_kind_is_one_token(rt: HostRuntime) -> Result<(), Fail> {
    let keywords = KEYWORDS.iter().map(|row| (row.0, TokenKind::Word(row.1)));
    let marks = MARKS.iter().map(|row| (row.0, TokenKind::Mark(row.1)));
    for (text, kind) in keywords.chain(marks).chain(OTHERS.iter().copied()) {
        let tokens = lex(rt.alloc(), text)?;
        let whole = token(kind, 0, text.len() as u32, 1);
        assert_eq!(rt; tokens.as_slice(), [whole].as_slice(), "{kind:?}");
    }
    Ok(())
}

#[test]
fn each_fault_is_the_first_by_place(rt: HostRuntime) {
    for (text, fault) in FAULTS {
        assert_eq!(rt; lex(rt.alloc(), text).err(), Some(fault), "{text:?}");
    }
}

#[test]
fn blanks_only_part_tokens(rt: HostRuntime) -> Result<(), Fail> {
    let text = b"\t #include <iostream.h>\n#includefoo\r\n/* a\n*/ x/**/007 // b\n\r<<=a->b---1x";
    let tokens = lex(rt.alloc(), text)?;
    let wanted = [
        token(TokenKind::Name, 45, 46, 4),
        token(TokenKind::Int(0), 50, 51, 4),
        token(TokenKind::Int(0), 51, 52, 4),
        token(TokenKind::Int(7), 52, 53, 4),
        token(TokenKind::Mark(Mark::LessLess), 60, 62, 5),
        token(TokenKind::Mark(Mark::Assign), 62, 63, 5),
        token(TokenKind::Name, 63, 64, 5),
        token(TokenKind::Mark(Mark::Arrow), 64, 66, 5),
        token(TokenKind::Name, 66, 67, 5),
        token(TokenKind::Mark(Mark::MinusMinus), 67, 69, 5),
        token(TokenKind::Mark(Mark::Minus), 69, 70, 5),
        token(TokenKind::Int(1), 70, 71, 5),
        token(TokenKind::Name, 71, 72, 5),
    ];
    assert_eq!(rt; tokens.as_slice(), wanted.as_slice());
    Ok(())
}

#[test]
fn limits_shorten_no_token(rt: HostRuntime) -> Result<(), Fail> {
    let alloc = rt.alloc();
    let longest = vec![in alloc; b'n'; 255]?;
    let tokens = lex(alloc, &longest)?;
    assert_eq!(rt;
        tokens.as_slice(),
        [token(TokenKind::Name, 0, 255, 1)].as_slice()
    );
    let longer = vec![in alloc; b'n'; 256]?;
    assert_eq!(rt;
        lex(alloc, &longer).err(),
        Some(LexFault::LongName { at: 0 })
    );

    let digits = vec![in alloc; b'9'; MAX_TEXT]?;
    assert_eq!(rt;
        lex(alloc, &digits).err(),
        Some(LexFault::NumberTooLarge { at: 0 })
    );
    let longest = vec![in alloc; b' '; MAX_TEXT]?;
    assert_eq!(rt; lex(alloc, &longest)?.len(), 0);
    let longer = vec![in alloc; b' '; MAX_TEXT + 1]?;
    assert_eq!(rt; lex(alloc, &longer).err(), Some(LexFault::TooLong));
    Ok(())
}

#[test]
fn escapes_stand_for_bytes(rt: HostRuntime) -> Result<(), Fail> {
    let bytes = unescaped(rt.alloc(), b"\"\\ta\\\\n\\\"\\n\"")?;
    assert_eq!(rt; bytes.as_slice(), b"\ta\\n\"\n".as_slice());
    Ok(())
}
