//! Statements.

ghost use Rattle.std.specs.Prelude.{◌≡◌, [], ◌∷◌};
ghost use Rattle.cc_grammar.specs.Reading.{Gives};
ghost use Rattle.cc_grammar.specs.ReadStatements as read;
ghost use Rattle.cc_statements.specs.Nests.{Nests, at_depth};

use crate::headers::{counter, header, test, within};
use cc_declarations::{begins_decl, decl};
use cc_expressions::{Cursor, Terms, flat, many, with_front};
use cc_grammar::{Block, Counter, Fault, Header};
use cc_lexer::{Keyword, Mark, TokenKind};
use cc_simple_statements::{begins_simple, empty, ended_by, jump, plain, print, returned, spawned};
use cc_tree::{Stmt, StmtKind};
use ccpp_edge::{Boxed, List};

/// What a statement begins with.
const FIRST_STMT: [TokenKind; 18] = [
    TokenKind::Mark(Mark::OpenBrace),
    TokenKind::Mark(Mark::Semicolon),
    TokenKind::Word(Keyword::Cout),
    TokenKind::Word(Keyword::If),
    TokenKind::Word(Keyword::While),
    TokenKind::Word(Keyword::For),
    TokenKind::Word(Keyword::Par),
    TokenKind::Word(Keyword::Parfor),
    TokenKind::Word(Keyword::Spawn),
    TokenKind::Word(Keyword::Return),
    TokenKind::Word(Keyword::Break),
    TokenKind::Word(Keyword::Continue),
    TokenKind::Mark(Mark::PlusPlus),
    TokenKind::Mark(Mark::MinusMinus),
    TokenKind::Mark(Mark::Star),
    TokenKind::Name,
    TokenKind::Word(Keyword::This),
    TokenKind::Mark(Mark::OpenParen),
];

/// What an entry of a block begins with: a declaration or a statement.
const FIRST_ENTRY: [TokenKind; 21] = [
    TokenKind::Word(Keyword::Int),
    TokenKind::Word(Keyword::Sync),
    TokenKind::Word(Keyword::Void),
    TokenKind::Mark(Mark::OpenBrace),
    TokenKind::Mark(Mark::Semicolon),
    TokenKind::Word(Keyword::Cout),
    TokenKind::Word(Keyword::If),
    TokenKind::Word(Keyword::While),
    TokenKind::Word(Keyword::For),
    TokenKind::Word(Keyword::Par),
    TokenKind::Word(Keyword::Parfor),
    TokenKind::Word(Keyword::Spawn),
    TokenKind::Word(Keyword::Return),
    TokenKind::Word(Keyword::Break),
    TokenKind::Word(Keyword::Continue),
    TokenKind::Mark(Mark::PlusPlus),
    TokenKind::Mark(Mark::MinusMinus),
    TokenKind::Mark(Mark::Star),
    TokenKind::Name,
    TokenKind::Word(Keyword::This),
    TokenKind::Mark(Mark::OpenParen),
];

/// Reads statements that open at most `terms.depth` levels. A statement within a level is read by `nested`.
#[derive(Clone, Copy)]
pub struct Statements<F> {
    pub terms: Terms,
    pub nested: F,
}

/// A declaration in a block.
#[tactic(auto, unfolding(cc_grammar::specs::ReadStatements::decl_entry))]
fn decl_entry(terms: Terms, tokens: &mut Cursor<'_>) -> Result<List<Stmt>, Fault>
    ensures { Gives (at_depth read.decl_entry terms.depth tokens.old) result tokens.new }
{
    let stmts = decl(within(terms), tokens)?;
    ended_by(tokens, Mark::Semicolon, stmts)
}

impl<F: Fn(Terms, &mut Cursor<'_>) -> Result<Stmt, Fault>> Statements<F> {
    /// A statement within a level that is open.
    #[tactic(auto, using(crate::proofs::NestLaws::inner_zero, crate::proofs::NestLaws::inner_one))]
    fn inner(&self, tokens: &mut Cursor<'_>) -> Result<Stmt, Fault>
        requires { Nests self.now.terms.depth (F.pre self.now.nested) (F.post self.now.nested) }
        ensures { Gives (read.inner_stmt self.now.terms.depth tokens.old) result tokens.new }
    {
        if self.terms.depth == 0 {
            return Err(Fault::TooDeep);
        }
        (self.nested)(within(self.terms), tokens)
    }

    /// The same, on the heap.
    fn inner_boxed(&self, tokens: &mut Cursor<'_>) -> Result<Boxed<Stmt>, Fault>
        requires { Nests self.now.terms.depth (F.pre self.now.nested) (F.post self.now.nested) }
        ensures { Gives (read.inner_stmt self.now.terms.depth tokens.old) result tokens.new }
    {
        let stmt = self.inner(tokens)?;
        Ok(Boxed::new(self.terms.alloc, stmt)?)
    }

    #[tactic(auto, unfolding(cc_grammar::specs::ReadStatements::stmt_entry))]
    fn stmt_entry(&self, tokens: &mut Cursor<'_>) -> Result<List<Stmt>, Fault>
        requires { Nests self.now.terms.depth (F.pre self.now.nested) (F.post self.now.nested) }
        ensures { Gives (at_depth read.stmt_entry self.now.terms.depth tokens.old) result tokens.new }
    {
        let stmt = self.inner(tokens)?;
        Ok(with_front(self.terms.alloc, stmt, List::new(self.terms.alloc))?)
    }

    /// An entry of a block: a declaration of one name or more, or a statement.
    #[tactic(auto, unfolding(cc_grammar::specs::ReadStatements::entry))]
    fn entry(&self, tokens: &mut Cursor<'_>) -> Result<List<Stmt>, Fault>
        requires { Nests self.now.terms.depth (F.pre self.now.nested) (F.post self.now.nested) }
        ensures { Gives (at_depth read.entry self.now.terms.depth tokens.old) result tokens.new }
    {
        if begins_decl(tokens) {
            return decl_entry(self.terms, tokens);
        }
        self.stmt_entry(tokens)
    }

    #[tactic(auto, unfolding(cc_grammar::specs::ReadStatements::entries))]
    fn entries(&self, tokens: &mut Cursor<'_>) -> Result<List<Stmt>, Fault>
        requires { Nests self.now.terms.depth (F.pre self.now.nested) (F.post self.now.nested) }
        ensures { Gives (at_depth read.entries self.now.terms.depth tokens.old) result tokens.new }
    {
        flat(
            self.terms.alloc,
            tokens,
            &FIRST_ENTRY,
            |tokens: &mut Cursor<'_>| -> Result<List<Stmt>, Fault>
                requires { Nests self.now.terms.depth (F.pre self.now.nested) (F.post self.now.nested) }
                ensures { Gives (at_depth read.entry self.entry.now.terms.depth tokens.old) result tokens.new }
            { self.entry(tokens) },
        )
    }

    /// A block.
    #[tactic(auto, unfolding(cc_grammar::specs::ReadStatements::block))]
    fn block(&self, tokens: &mut Cursor<'_>) -> Result<Block, Fault>
        requires { Nests self.now.terms.depth (F.pre self.now.nested) (F.post self.now.nested) }
        ensures { Gives (at_depth read.block self.now.terms.depth tokens.old) result tokens.new }
    {
        let line = tokens.open_mark(self.terms.depth, Mark::OpenBrace)?;
        let body = self.entries(tokens)?;
        let body = ended_by(tokens, Mark::CloseBrace, body)?;
        Ok(Block { body, line })
    }

    #[tactic(auto, unfolding(cc_grammar::specs::ReadStatements::block_stmt))]
    fn block_stmt(&self, tokens: &mut Cursor<'_>) -> Result<Stmt, Fault>
        requires { Nests self.now.terms.depth (F.pre self.now.nested) (F.post self.now.nested) }
        ensures { Gives (at_depth read.block_stmt self.now.terms.depth tokens.old) result tokens.new }
    {
        let Block { body, line } = self.block(tokens)?;
        let kind = StmtKind::Block(body);
        Ok(Stmt { kind, line })
    }

    #[tactic(auto, unfolding(cc_grammar::specs::ReadStatements::else_stmt))]
    fn else_stmt(&self, tokens: &mut Cursor<'_>) -> Result<Option<Boxed<Stmt>>, Fault>
        requires { Nests self.now.terms.depth (F.pre self.now.nested) (F.post self.now.nested) }
        ensures { Gives (at_depth read.else_stmt self.now.terms.depth tokens.old) result tokens.new }
    {
        tokens.word(Keyword::Else)?;
        Ok(Some(self.inner_boxed(tokens)?))
    }

    /// `else` with its statement, or nothing.
    #[tactic(auto, unfolding(cc_grammar::specs::ReadStatements::otherwise))]
    fn otherwise(&self, tokens: &mut Cursor<'_>) -> Result<Option<Boxed<Stmt>>, Fault>
        requires { Nests self.now.terms.depth (F.pre self.now.nested) (F.post self.now.nested) }
        ensures { Gives (at_depth read.otherwise self.now.terms.depth tokens.old) result tokens.new }
    {
        if tokens.at_word(Keyword::Else) {
            return self.else_stmt(tokens);
        }
        Ok(None)
    }

    /// An `if`.
    #[tactic(auto, unfolding(cc_grammar::specs::ReadStatements::choice))]
    fn choice(&self, tokens: &mut Cursor<'_>) -> Result<Stmt, Fault>
        requires { Nests self.now.terms.depth (F.pre self.now.nested) (F.post self.now.nested) }
        ensures { Gives (at_depth read.choice self.now.terms.depth tokens.old) result tokens.new }
    {
        let line = tokens.open_word(self.terms.depth, Keyword::If)?;
        let test = test(within(self.terms), tokens)?;
        let yes = self.inner_boxed(tokens)?;
        let no = self.otherwise(tokens)?;
        let kind = StmtKind::If { test, yes, no };
        Ok(Stmt { kind, line })
    }

    /// A `while`.
    #[tactic(auto, using(crate::proofs::LoopLaws::loop_reads))]
    fn while_loop(&self, tokens: &mut Cursor<'_>) -> Result<Stmt, Fault>
        requires { Nests self.now.terms.depth (F.pre self.now.nested) (F.post self.now.nested) }
        ensures { Gives (at_depth read.loop self.now.terms.depth tokens.old) result tokens.new }
    {
        let line = tokens.open_word(self.terms.depth, Keyword::While)?;
        let test = test(within(self.terms), tokens)?;
        let body = self.inner_boxed(tokens)?;
        let kind = StmtKind::While { test, body };
        Ok(Stmt { kind, line })
    }

    /// A `for`.
    #[tactic(auto, unfolding(cc_grammar::specs::ReadStatements::for_loop))]
    fn for_loop(&self, tokens: &mut Cursor<'_>) -> Result<Stmt, Fault>
        requires { Nests self.now.terms.depth (F.pre self.now.nested) (F.post self.now.nested) }
        ensures { Gives (at_depth read.for_loop self.now.terms.depth tokens.old) result tokens.new }
    {
        let line = tokens.open_word(self.terms.depth, Keyword::For)?;
        let Header { start, test, step } = header(within(self.terms), tokens)?;
        let body = self.inner_boxed(tokens)?;
        let kind = StmtKind::For {
            start,
            test,
            step,
            body,
        };
        Ok(Stmt { kind, line })
    }

    #[tactic(auto, unfolding(cc_grammar::specs::ReadStatements::stmts))]
    fn stmts(&self, tokens: &mut Cursor<'_>) -> Result<List<Stmt>, Fault>
        requires { Nests self.now.terms.depth (F.pre self.now.nested) (F.post self.now.nested) }
        ensures { Gives (at_depth read.stmts self.now.terms.depth tokens.old) result tokens.new }
    {
        many(
            self.terms.alloc,
            tokens,
            &FIRST_STMT,
            |tokens: &mut Cursor<'_>| -> Result<Stmt, Fault>
                requires { Nests self.now.terms.depth (F.pre self.now.nested) (F.post self.now.nested) }
                ensures { Gives (read.inner_stmt self.entry.now.terms.depth tokens.old) result tokens.new }
            { self.inner(tokens) },
        )
    }

    /// Statements in braces.
    #[tactic(auto, unfolding(cc_grammar::specs::ReadStatements::braced))]
    fn braced(&self, tokens: &mut Cursor<'_>) -> Result<List<Stmt>, Fault>
        requires { Nests self.now.terms.depth (F.pre self.now.nested) (F.post self.now.nested) }
        ensures { Gives (at_depth read.braced self.now.terms.depth tokens.old) result tokens.new }
    {
        tokens.open_mark(self.terms.depth, Mark::OpenBrace)?;
        let stmts = self.stmts(tokens)?;
        ended_by(tokens, Mark::CloseBrace, stmts)
    }

    /// A `par`.
    #[tactic(auto, unfolding(cc_grammar::specs::ReadStatements::parallel))]
    fn parallel(&self, tokens: &mut Cursor<'_>) -> Result<Stmt, Fault>
        requires { Nests self.now.terms.depth (F.pre self.now.nested) (F.post self.now.nested) }
        ensures { Gives (at_depth read.parallel self.now.terms.depth tokens.old) result tokens.new }
    {
        let line = tokens.word(Keyword::Par)?;
        let kind = StmtKind::Par(self.braced(tokens)?);
        Ok(Stmt { kind, line })
    }

    /// A `parfor`.
    #[tactic(auto, unfolding(cc_grammar::specs::ReadStatements::parallel_for))]
    fn parallel_for(&self, tokens: &mut Cursor<'_>) -> Result<Stmt, Fault>
        requires { Nests self.now.terms.depth (F.pre self.now.nested) (F.post self.now.nested) }
        ensures { Gives (at_depth read.parallel_for self.now.terms.depth tokens.old) result tokens.new }
    {
        let line = tokens.open_word(self.terms.depth, Keyword::Parfor)?;
        let Counter {
            name,
            start,
            test,
            step,
        } = counter(within(self.terms), tokens)?;
        let step = Boxed::new(self.terms.alloc, step)?;
        let body = self.inner_boxed(tokens)?;
        let kind = StmtKind::ParFor {
            name,
            start,
            test,
            step,
            body,
        };
        Ok(Stmt { kind, line })
    }

    /// A statement that begins with a keyword.
    #[tactic(auto, unfolding(cc_grammar::specs::ReadStatements::word_stmt))]
    fn word_stmt(&self, tokens: &mut Cursor<'_>) -> Result<Stmt, Fault>
        requires { Nests self.now.terms.depth (F.pre self.now.nested) (F.post self.now.nested) }
        ensures { Gives (at_depth read.word_stmt self.now.terms.depth tokens.old) result tokens.new }
    {
        if tokens.at_word(Keyword::Cout) {
            return print(self.terms, tokens);
        }
        if tokens.at_word(Keyword::If) {
            return self.choice(tokens);
        }
        if tokens.at_word(Keyword::While) {
            return self.while_loop(tokens);
        }
        if tokens.at_word(Keyword::For) {
            return self.for_loop(tokens);
        }
        if tokens.at_word(Keyword::Par) {
            return self.parallel(tokens);
        }
        if tokens.at_word(Keyword::Parfor) {
            return self.parallel_for(tokens);
        }
        if tokens.at_word(Keyword::Spawn) {
            return spawned(self.terms, tokens);
        }
        if tokens.at_word(Keyword::Return) {
            return returned(self.terms, tokens);
        }
        jump(tokens)
    }

    /// A statement.
    #[tactic(auto, unfolding(cc_grammar::specs::ReadStatements::stmt_line))]
    fn stmt_line(&self, tokens: &mut Cursor<'_>) -> Result<Stmt, Fault>
        requires { Nests self.now.terms.depth (F.pre self.now.nested) (F.post self.now.nested) }
        ensures { Gives (at_depth read.stmt_line self.now.terms.depth tokens.old) result tokens.new }
    {
        if tokens.at_mark(Mark::OpenBrace) {
            return self.block_stmt(tokens);
        }
        if tokens.at_mark(Mark::Semicolon) {
            return empty(tokens);
        }
        if begins_simple(tokens) {
            return plain(self.terms, tokens);
        }
        self.word_stmt(tokens)
    }
}

/// A statement that opens at most `terms.depth` levels.
#[tactic(auto, using(crate::proofs::NestLaws::stmt_at))]
pub fn statement(terms: Terms, tokens: &mut Cursor<'_>) -> Result<Stmt, Fault>
    ensures { Gives (read.stmt terms.depth tokens.old) result tokens.new }
{
    let statements = Statements {
        terms,
        nested: statement,
    };
    statements.stmt_line(tokens)
}

/// A block that opens at most `terms.depth` levels.
pub fn block_at(terms: Terms, tokens: &mut Cursor<'_>) -> Result<Block, Fault>
    ensures { Gives (read.block_at terms.depth tokens.old) result tokens.new }
{
    let statements = Statements {
        terms,
        nested: statement,
    };
    statements.block(tokens)
}
