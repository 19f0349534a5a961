//! Tests of `cc_statements`: which texts are statements, and where reading ends.

use cc_expressions::{Cursor, Terms};
use cc_grammar::Fault;
use cc_lexer::lex;
use cc_statements::statement;
use cc_tree::{AssignOp, Stmt, StmtKind};
use std::alloc::Global;
use std::test::Fail;

/// A text, how many levels it may open, what is read, of how many parts, and how many tokens are left.
const CASES: [(&str, usize, &str, usize, usize); 38] = [
    (";", 0, "empty", 0, 0),
    ("{}", 1, "block", 0, 0),
    ("{ a * b; }", 1, "block", 1, 0),
    ("{ a * b = c; a = b; }", 1, "block", 2, 0),
    ("{ int a, *b, c[2]; int d(1); }", 3, "block", 4, 0),
    ("{ a + b; }", 1, "syntax", 0, 4),
    ("int a;", 9, "syntax", 0, 3),
    ("a = b == c;", 0, "set", 0, 0),
    ("a += 1;", 0, "add", 0, 0),
    ("a %= 1;", 0, "change", 0, 0),
    ("a++;", 0, "add", 0, 0),
    ("--a->b[1];", 1, "change", 0, 0),
    ("++f();", 1, "syntax", 0, 1),
    ("*a = 1;", 1, "set", 0, 0),
    ("*a = 1;", 0, "too deep", 0, 5),
    ("a.f(1);", 1, "call", 0, 0),
    ("a.f(1)++;", 1, "syntax", 0, 2),
    ("(a);", 1, "syntax", 0, 1),
    ("cout << a + 1 << \"b\" << endl;", 0, "print", 3, 0),
    ("cout << a < b;", 0, "syntax", 0, 3),
    ("cout;", 0, "syntax", 0, 1),
    ("if (a) if (b) c = 1; else d = 1;", 3, "if", 1, 0),
    ("if (a) { if (b) ; } else ;", 4, "if", 2, 0),
    ("while (a) a--;", 2, "while", 1, 0),
    ("while (a) a--;", 1, "too deep", 0, 6),
    ("for (;;) ;", 2, "for", 0, 0),
    ("for (int a = 1, b; a < b; a++) ;", 2, "for", 2, 0),
    ("for (a = 1; ; *b = 1) ;", 3, "for", 1, 0),
    ("for (;; int a) ;", 2, "syntax", 0, 4),
    ("par { a(); { b(); } }", 3, "par", 2, 0),
    ("par { int a; }", 2, "syntax", 0, 4),
    ("parfor (int a = 0; a < 9; a++) ;", 2, "parfor", 1, 0),
    ("parfor (a = 0; a < 9; a++) ;", 2, "syntax", 0, 12),
    ("break;", 0, "break", 0, 0),
    ("continue; a", 0, "continue", 0, 1),
    ("spawn a->f();", 1, "spawn", 0, 0),
    ("return;", 0, "return", 0, 0),
    ("return a; b", 0, "return", 1, 1),
];

/// A word for a statement, and how many parts it has.
fn shape(stmt: &Stmt) -> (&'static str, usize) {
    match &stmt.kind {
        StmtKind::Block(body) => ("block", body.len()),
        StmtKind::Empty => ("empty", 0),
        StmtKind::Declare(_) => ("declare", 1),
        StmtKind::Assign {
            op: AssignOp::Set,
            ..
        } => ("set", 0),
        StmtKind::Assign {
            op: AssignOp::Add,
            ..
        } => ("add", 0),
        StmtKind::Assign { .. } => ("change", 0),
        StmtKind::Call(_) => ("call", 0),
        StmtKind::Print(items) => ("print", items.len()),
        StmtKind::If { no: None, .. } => ("if", 1),
        StmtKind::If { .. } => ("if", 2),
        StmtKind::While { .. } => ("while", 1),
        StmtKind::For { start, .. } => ("for", start.len()),
        StmtKind::Break => ("break", 0),
        StmtKind::Continue => ("continue", 0),
        StmtKind::Par(stmts) => ("par", stmts.len()),
        StmtKind::ParFor { .. } => ("parfor", 1),
        StmtKind::Spawn(_) => ("spawn", 0),
        StmtKind::Return(None) => ("return", 0),
        StmtKind::Return(Some(_)) => ("return", 1),
    }
}

/// What `tell` says of what was read.
fn told<T: Drop, R, S: Fn(&T) -> R>(read: Result<T, Fault>, tell: S) -> Result<R, Fault>
    requires { S.IsAlwaysCallable tell }
{
    let item = read?;
    Ok(tell(&item))
}

/// What is read of a text, of how many parts, and how many tokens are left.
fn outcome(alloc: Global, text: &str, depth: usize) -> (&'static str, usize, usize) {
    let Ok(tokens) = lex(alloc, text.as_bytes()) else {
        return ("no tokens", 0, 0);
    };
    let mut cursor = Cursor::new(tokens.as_slice(), text.as_bytes());
    let read = statement(Terms { alloc, depth }, &mut cursor);
    let (kind, parts) = match told(read, shape) {
        Ok(shape) => shape,
        Err(Fault::Syntax) => ("syntax", 0),
        Err(Fault::TooDeep) => ("too deep", 0),
        Err(Fault::Memory) => ("memory", 0),
    };
    (kind, parts, cursor.left())
}

#[test]
fn statements_are_read(rt: HostRuntime) -> Result<(), Fail> {
    for (text, depth, kind, parts, left) in CASES {
        let got = outcome(rt.alloc(), text, depth);
        assert_eq!(rt; got, (kind, parts, left), "{text}");
    }
    Ok(())
}
