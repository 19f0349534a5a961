//! Expressions, places and calls.

ghost use Rattle.std.specs.Prelude.{◌≡◌, [], ◌∷◌, IfOk};
ghost use Rattle.cc_grammar.specs.Reading.{Gives};
ghost use Rattle.cc_grammar.specs.Endings as endings;
ghost use Rattle.cc_grammar.specs.ReadExpressions as read;
ghost use Rattle.cc_grammar.specs.ReadExpressions.{at_level};
ghost use Rattle.cc_expressions.specs.Nests as nests;
ghost use Rattle.cc_expressions.specs.Nests.{Nests, within_level};

use crate::cursor::Cursor;
use crate::lists::{listed, many};
use crate::nodes::{boxed, member_of, named, posted, prefixed};
use crate::operators::level;
use cc_grammar::{Ending, Fault, Name, Precedence};
use cc_lexer::{Keyword, Mark, TokenKind};
use cc_tree::{Expr, ExprKind, Suffix, UnaryOp};
use ccpp_edge::{Boxed, List};
use std::alloc::Global;

const FIRST_EXPR: [TokenKind; 10] = [
    TokenKind::Mark(Mark::Minus),
    TokenKind::Mark(Mark::Not),
    TokenKind::Mark(Mark::Star),
    TokenKind::Mark(Mark::Ampersand),
    TokenKind::Word(Keyword::New),
    TokenKind::Int(0),
    TokenKind::Word(Keyword::Null),
    TokenKind::Name,
    TokenKind::Word(Keyword::This),
    TokenKind::Mark(Mark::OpenParen),
];

const FIRST_TAIL: [TokenKind; 3] = [
    TokenKind::Mark(Mark::OpenBracket),
    TokenKind::Mark(Mark::Dot),
    TokenKind::Mark(Mark::Arrow),
];

/// What is read within a level: an expression, or a unary alone.
#[derive(Clone, Copy, Debug, PartialEq, Eq)]
pub enum Form {
    Whole,
    Unary,
}

/// Reads expressions that open at most `depth` levels. What stands within a level is read by `nested`.
#[derive(Clone, Copy)]
pub struct Expressions<F> {
    pub alloc: Global,
    pub depth: usize,
    pub nested: F,
}

/// `.` or `->`, by whether it is the second.
#[tactic(auto, unfolding(cc_grammar::specs::ReadExpressions::dot))]
fn dot(tokens: &mut Cursor<'_>) -> Result<bool, Fault>
    ensures { Gives (read.dot tokens.old) result tokens.new }
{
    if tokens.at_mark(Mark::Dot) {
        tokens.mark(Mark::Dot)?;
        return Ok(false);
    }
    tokens.mark(Mark::Arrow)?;
    Ok(true)
}

impl<F: Fn(Global, &mut Cursor<'_>, usize, Form) -> Result<Expr, Fault>> Expressions<F> {
    /// What stands within a level that is open.
    #[tactic(auto, using(crate::proofs::NestLaws::inner_zero, crate::proofs::NestLaws::inner_one))]
    pub fn inner(&self, tokens: &mut Cursor<'_>, form: Form) -> Result<Expr, Fault>
        requires { Nests self.now.depth (F.pre self.now.nested) (F.post self.now.nested) }
        ensures { Gives (within_level self.now.depth form tokens.old) result tokens.new }
    {
        if self.depth == 0 {
            return Err(Fault::TooDeep);
        }
        (self.nested)(self.alloc, tokens, self.depth - 1, form)
    }

    /// Arguments in parentheses.
    #[tactic(auto, unfolding(cc_grammar::specs::ReadExpressions::args))]
    pub fn args(&self, tokens: &mut Cursor<'_>) -> Result<List<Expr>, Fault>
        requires { Nests self.now.depth (F.pre self.now.nested) (F.post self.now.nested) }
        ensures { Gives (at_level read.args self.now.depth tokens.old) result tokens.new }
    {
        tokens.open_mark(self.depth, Mark::OpenParen)?;
        let args = listed(
            self.alloc,
            tokens,
            &FIRST_EXPR,
            |tokens| self.inner(tokens, Form::Whole),
        )?;
        tokens.mark(Mark::CloseParen)?;
        Ok(args)
    }

    #[tactic(auto, unfolding(cc_grammar::specs::ReadExpressions::maybe_args))]
    fn maybe_args(&self, tokens: &mut Cursor<'_>) -> Result<Option<List<Expr>>, Fault>
        requires { Nests self.now.depth (F.pre self.now.nested) (F.post self.now.nested) }
        ensures { Gives (at_level read.maybe_args self.now.depth tokens.old) result tokens.new }
    {
        if tokens.at_mark(Mark::OpenParen) {
            return Ok(Some(self.args(tokens)?));
        }
        Ok(None)
    }

    /// An expression in brackets.
    #[tactic(auto, unfolding(cc_grammar::specs::ReadExpressions::bracketed))]
    fn bracketed(&self, tokens: &mut Cursor<'_>) -> Result<Expr, Fault>
        requires { Nests self.now.depth (F.pre self.now.nested) (F.post self.now.nested) }
        ensures { Gives (at_level read.bracketed self.now.depth tokens.old) result tokens.new }
    {
        tokens.open_mark(self.depth, Mark::OpenBracket)?;
        let inner = self.inner(tokens, Form::Whole)?;
        tokens.mark(Mark::CloseBracket)?;
        Ok(inner)
    }

    /// An expression in brackets, or none.
    #[tactic(auto, unfolding(cc_grammar::specs::ReadExpressions::maybe_bracketed))]
    pub fn maybe_bracketed(&self, tokens: &mut Cursor<'_>) -> Result<Option<Expr>, Fault>
        requires { Nests self.now.depth (F.pre self.now.nested) (F.post self.now.nested) }
        ensures { Gives (at_level read.maybe_bracketed self.now.depth tokens.old) result tokens.new }
    {
        if tokens.at_mark(Mark::OpenBracket) {
            return Ok(Some(self.bracketed(tokens)?));
        }
        Ok(None)
    }

    #[tactic(auto, unfolding(cc_grammar::specs::ReadExpressions::paren))]
    fn paren(&self, tokens: &mut Cursor<'_>) -> Result<Expr, Fault>
        requires { Nests self.now.depth (F.pre self.now.nested) (F.post self.now.nested) }
        ensures { Gives (at_level read.paren self.now.depth tokens.old) result tokens.new }
    {
        let line = tokens.open_mark(self.depth, Mark::OpenParen)?;
        let inner = self.inner(tokens, Form::Whole)?;
        tokens.mark(Mark::CloseParen)?;
        let kind = ExprKind::Paren(Boxed::new(self.alloc, inner)?);
        Ok(Expr { kind, line })
    }

    #[tactic(auto, unfolding(cc_grammar::specs::ReadExpressions::index))]
    fn index(&self, tokens: &mut Cursor<'_>) -> Result<Suffix, Fault>
        requires { Nests self.now.depth (F.pre self.now.nested) (F.post self.now.nested) }
        ensures { Gives (at_level read.index self.now.depth tokens.old) result tokens.new }
    {
        Ok(Suffix::Index(self.bracketed(tokens)?))
    }

    #[tactic(auto, unfolding(cc_grammar::specs::ReadExpressions::member))]
    fn member(&self, tokens: &mut Cursor<'_>) -> Result<Suffix, Fault>
        requires { Nests self.now.depth (F.pre self.now.nested) (F.post self.now.nested) }
        ensures { Gives (at_level read.member self.now.depth tokens.old) result tokens.new }
    {
        let arrow = dot(tokens)?;
        let name = tokens.name(self.alloc)?;
        let args = self.maybe_args(tokens)?;
        Ok(member_of(arrow, name, args))
    }

    #[tactic(auto, unfolding(cc_grammar::specs::ReadExpressions::tail))]
    fn tail(&self, tokens: &mut Cursor<'_>) -> Result<Suffix, Fault>
        requires { Nests self.now.depth (F.pre self.now.nested) (F.post self.now.nested) }
        ensures { Gives (at_level read.tail self.now.depth tokens.old) result tokens.new }
    {
        if tokens.at_mark(Mark::OpenBracket) {
            return self.index(tokens);
        }
        self.member(tokens)
    }

    /// The tails of a postfix expression.
    #[tactic(auto, unfolding(cc_grammar::specs::ReadExpressions::tails))]
    pub fn tails(&self, tokens: &mut Cursor<'_>) -> Result<List<Suffix>, Fault>
        requires { Nests self.now.depth (F.pre self.now.nested) (F.post self.now.nested) }
        ensures { Gives (at_level read.tails self.now.depth tokens.old) result tokens.new }
    {
        many(self.alloc, tokens, &FIRST_TAIL, |tokens| self.tail(tokens))
    }

    #[tactic(auto, unfolding(cc_grammar::specs::ReadExpressions::named_root))]
    fn named_root(&self, tokens: &mut Cursor<'_>) -> Result<Expr, Fault>
        requires { Nests self.now.depth (F.pre self.now.nested) (F.post self.now.nested) }
        ensures { Gives (at_level read.named_root self.now.depth tokens.old) result tokens.new }
    {
        let name = tokens.name(self.alloc)?;
        let args = self.maybe_args(tokens)?;
        Ok(named(name, args))
    }

    #[tactic(auto, unfolding(cc_grammar::specs::ReadExpressions::this))]
    fn this(&self, tokens: &mut Cursor<'_>) -> Result<Expr, Fault>
        requires { Nests self.now.depth (F.pre self.now.nested) (F.post self.now.nested) }
        ensures { Gives (at_level read.this self.now.depth tokens.old) result tokens.new }
    {
        let line = tokens.word(Keyword::This)?;
        Ok(Expr {
            kind: ExprKind::This,
            line,
        })
    }

    /// What a chain of tails begins with.
    #[tactic(auto, unfolding(cc_grammar::specs::ReadExpressions::root))]
    pub fn root(&self, tokens: &mut Cursor<'_>) -> Result<Expr, Fault>
        requires { Nests self.now.depth (F.pre self.now.nested) (F.post self.now.nested) }
        ensures { Gives (at_level read.root self.now.depth tokens.old) result tokens.new }
    {
        if tokens.at(TokenKind::Name) {
            return self.named_root(tokens);
        }
        if tokens.at_word(Keyword::This) {
            return self.this(tokens);
        }
        self.paren(tokens)
    }

    #[tactic(auto, unfolding(cc_grammar::specs::ReadExpressions::literal))]
    fn literal(&self, tokens: &mut Cursor<'_>) -> Result<Expr, Fault>
        requires { Nests self.now.depth (F.pre self.now.nested) (F.post self.now.nested) }
        ensures { Gives (at_level read.literal self.now.depth tokens.old) result tokens.new }
    {
        let number = tokens.number()?;
        Ok(Expr {
            kind: ExprKind::Int(number.value),
            line: number.line,
        })
    }

    #[tactic(auto, unfolding(cc_grammar::specs::ReadExpressions::null))]
    fn null(&self, tokens: &mut Cursor<'_>) -> Result<Expr, Fault>
        requires { Nests self.now.depth (F.pre self.now.nested) (F.post self.now.nested) }
        ensures { Gives (at_level read.null self.now.depth tokens.old) result tokens.new }
    {
        let line = tokens.word(Keyword::Null)?;
        Ok(Expr {
            kind: ExprKind::Null,
            line,
        })
    }

    #[tactic(auto, unfolding(cc_grammar::specs::ReadExpressions::prim))]
    fn prim(&self, tokens: &mut Cursor<'_>) -> Result<Expr, Fault>
        requires { Nests self.now.depth (F.pre self.now.nested) (F.post self.now.nested) }
        ensures { Gives (at_level read.prim self.now.depth tokens.old) result tokens.new }
    {
        if tokens.at(TokenKind::Int(0)) {
            return self.literal(tokens);
        }
        if tokens.at_word(Keyword::Null) {
            return self.null(tokens);
        }
        self.root(tokens)
    }

    /// An operator before its operand.
    #[tactic(auto, unfolding(cc_grammar::specs::ReadExpressions::prefix))]
    pub fn prefix(&self, tokens: &mut Cursor<'_>, mark: Mark, op: UnaryOp) -> Result<Expr, Fault>
        requires { Nests self.now.depth (F.pre self.now.nested) (F.post self.now.nested) }
        ensures { Gives (read.prefix self.now.depth (read.inner_expr self.now.depth) (read.inner_unary self.now.depth) mark op tokens.old) result tokens.new }
    {
        let line = tokens.open_mark(self.depth, mark)?;
        let part = self.inner(tokens, Form::Unary)?;
        Ok(prefixed(self.alloc, op, part, line)?)
    }

    #[tactic(auto, unfolding(cc_grammar::specs::ReadExpressions::new_object))]
    fn new_object(&self, tokens: &mut Cursor<'_>, line: u32) -> Result<Expr, Fault>
        requires { Nests self.now.depth (F.pre self.now.nested) (F.post self.now.nested) }
        ensures { Gives (read.new_object self.now.depth (read.inner_expr self.now.depth) (read.inner_unary self.now.depth) line tokens.old) result tokens.new }
    {
        let Name { text: name, .. } = tokens.name(self.alloc)?;
        let args = self.maybe_args(tokens)?;
        let args = args.unwrap_or(List::new(self.alloc));
        let kind = ExprKind::NewClass { name, args };
        Ok(Expr { kind, line })
    }

    #[tactic(auto, unfolding(cc_grammar::specs::ReadExpressions::new_int))]
    fn new_int(&self, tokens: &mut Cursor<'_>, line: u32) -> Result<Expr, Fault>
        requires { Nests self.now.depth (F.pre self.now.nested) (F.post self.now.nested) }
        ensures { Gives (read.new_int self.now.depth (read.inner_expr self.now.depth) (read.inner_unary self.now.depth) line tokens.old) result tokens.new }
    {
        let sync = tokens.has_word(Keyword::Sync)?;
        tokens.word(Keyword::Int)?;
        let length = self.maybe_bracketed(tokens)?;
        let length = boxed(self.alloc, length)?;
        let kind = ExprKind::NewInt { sync, length };
        Ok(Expr { kind, line })
    }

    #[tactic(auto, unfolding(cc_grammar::specs::ReadExpressions::creation))]
    fn creation(&self, tokens: &mut Cursor<'_>) -> Result<Expr, Fault>
        requires { Nests self.now.depth (F.pre self.now.nested) (F.post self.now.nested) }
        ensures { Gives (at_level read.creation self.now.depth tokens.old) result tokens.new }
    {
        let line = tokens.word(Keyword::New)?;
        if tokens.at_any(&[
            TokenKind::Word(Keyword::Sync),
            TokenKind::Word(Keyword::Int),
        ]) {
            return self.new_int(tokens, line);
        }
        self.new_object(tokens, line)
    }

    #[tactic(auto, unfolding(cc_grammar::specs::ReadExpressions::postfix))]
    fn postfix(&self, tokens: &mut Cursor<'_>) -> Result<Expr, Fault>
        requires { Nests self.now.depth (F.pre self.now.nested) (F.post self.now.nested) }
        ensures { Gives (at_level read.postfix self.now.depth tokens.old) result tokens.new }
    {
        let base = self.prim(tokens)?;
        let tail = self.tails(tokens)?;
        Ok(posted(self.alloc, base, tail)?)
    }

    #[tactic(auto, unfolding(cc_grammar::specs::ReadExpressions::unary_line))]
    fn unary_line(&self, tokens: &mut Cursor<'_>) -> Result<Expr, Fault>
        requires { Nests self.now.depth (F.pre self.now.nested) (F.post self.now.nested) }
        ensures { Gives (at_level read.unary_line self.now.depth tokens.old) result tokens.new }
    {
        if tokens.at_mark(Mark::Minus) {
            return self.prefix(tokens, Mark::Minus, UnaryOp::Neg);
        }
        if tokens.at_mark(Mark::Not) {
            return self.prefix(tokens, Mark::Not, UnaryOp::Not);
        }
        if tokens.at_mark(Mark::Star) {
            return self.prefix(tokens, Mark::Star, UnaryOp::Deref);
        }
        if tokens.at_mark(Mark::Ampersand) {
            return self.prefix(tokens, Mark::Ampersand, UnaryOp::Address);
        }
        if tokens.at_word(Keyword::New) {
            return self.creation(tokens);
        }
        self.postfix(tokens)
    }

    #[tactic(auto, unfolding(cc_grammar::specs::ReadExpressions::product))]
    fn product(&self, tokens: &mut Cursor<'_>) -> Result<Expr, Fault>
        requires { Nests self.now.depth (F.pre self.now.nested) (F.post self.now.nested) }
        ensures { Gives (at_level read.product self.now.depth tokens.old) result tokens.new }
    {
        level(
            self.alloc,
            tokens,
            Precedence::Product,
            |tokens| self.unary_line(tokens),
        )
    }

    #[tactic(auto, unfolding(cc_grammar::specs::ReadExpressions::sum))]
    pub fn sum(&self, tokens: &mut Cursor<'_>) -> Result<Expr, Fault>
        requires { Nests self.now.depth (F.pre self.now.nested) (F.post self.now.nested) }
        ensures { Gives (at_level read.sum self.now.depth tokens.old) result tokens.new }
    {
        level(
            self.alloc,
            tokens,
            Precedence::Sum,
            |tokens| self.product(tokens),
        )
    }

    #[tactic(auto, unfolding(cc_grammar::specs::ReadExpressions::order))]
    fn order(&self, tokens: &mut Cursor<'_>) -> Result<Expr, Fault>
        requires { Nests self.now.depth (F.pre self.now.nested) (F.post self.now.nested) }
        ensures { Gives (at_level read.order self.now.depth tokens.old) result tokens.new }
    {
        level(
            self.alloc,
            tokens,
            Precedence::Order,
            |tokens| self.sum(tokens),
        )
    }

    #[tactic(auto, unfolding(cc_grammar::specs::ReadExpressions::equal))]
    fn equal(&self, tokens: &mut Cursor<'_>) -> Result<Expr, Fault>
        requires { Nests self.now.depth (F.pre self.now.nested) (F.post self.now.nested) }
        ensures { Gives (at_level read.equal self.now.depth tokens.old) result tokens.new }
    {
        level(
            self.alloc,
            tokens,
            Precedence::Equality,
            |tokens| self.order(tokens),
        )
    }

    #[tactic(auto, unfolding(cc_grammar::specs::ReadExpressions::conjunction))]
    fn conjunction(&self, tokens: &mut Cursor<'_>) -> Result<Expr, Fault>
        requires { Nests self.now.depth (F.pre self.now.nested) (F.post self.now.nested) }
        ensures { Gives (at_level read.conjunction self.now.depth tokens.old) result tokens.new }
    {
        level(
            self.alloc,
            tokens,
            Precedence::And,
            |tokens| self.equal(tokens),
        )
    }

    #[tactic(auto, unfolding(cc_grammar::specs::ReadExpressions::expr_line))]
    fn expr_line(&self, tokens: &mut Cursor<'_>) -> Result<Expr, Fault>
        requires { Nests self.now.depth (F.pre self.now.nested) (F.post self.now.nested) }
        ensures { Gives (at_level read.expr_line self.now.depth tokens.old) result tokens.new }
    {
        level(
            self.alloc,
            tokens,
            Precedence::Or,
            |tokens| self.conjunction(tokens),
        )
    }

    /// A place: a `*` and its operand, or a chain that ends as one.
    #[tactic(auto, unfolding(cc_grammar::specs::ReadExpressions::place_line, cc_grammar::specs::ReadExpressions::place_chain))]
    pub fn place(&self, tokens: &mut Cursor<'_>) -> Result<Expr, Fault>
        requires { Nests self.now.depth (F.pre self.now.nested) (F.post self.now.nested) }
        ensures { Gives (at_level read.place_line self.now.depth tokens.old) result tokens.new }
    {
        if tokens.at_mark(Mark::Star) {
            return self.prefix(tokens, Mark::Star, UnaryOp::Deref);
        }
        let base = self.root(tokens)?;
        let tail = self.tails(tokens)?;
        match ending(&base, tail.as_slice()) {
            Ending::Place => Ok(posted(self.alloc, base, tail)?),
            Ending::Call => Err(Fault::Syntax),
            Ending::Neither => Err(Fault::Syntax),
        }
    }

    /// A call: a chain that ends as one.
    #[tactic(auto, unfolding(cc_grammar::specs::ReadExpressions::call_line))]
    pub fn call(&self, tokens: &mut Cursor<'_>) -> Result<Expr, Fault>
        requires { Nests self.now.depth (F.pre self.now.nested) (F.post self.now.nested) }
        ensures { Gives (at_level read.call_line self.now.depth tokens.old) result tokens.new }
    {
        let base = self.root(tokens)?;
        let tail = self.tails(tokens)?;
        match ending(&base, tail.as_slice()) {
            Ending::Place => Err(Fault::Syntax),
            Ending::Call => Ok(posted(self.alloc, base, tail)?),
            Ending::Neither => Err(Fault::Syntax),
        }
    }
}

/// An expression, or a unary alone, that opens at most `depth` levels.
#[tactic(auto, using(crate::proofs::NestLaws::within_whole, crate::proofs::NestLaws::within_unary))]
pub fn within(
    alloc: Global,
    tokens: &mut Cursor<'_>,
    depth: usize,
    form: Form,
) -> Result<Expr, Fault>
    ensures { Gives (nests.within depth form tokens.old) result tokens.new }
{
    let expressions = Expressions {
        alloc,
        depth,
        nested: within,
    };
    match form {
        Form::Whole => expressions.expr_line(tokens),
        Form::Unary => expressions.unary_line(tokens),
    }
}

#[tactic(auto, unfolding(cc_grammar::specs::Endings::root_ending))]
fn root_ending(base: &Expr) -> Ending
    ensures { result ≡ endings.root_ending base.now }
{
    match &base.kind {
        ExprKind::Name(_) => Ending::Place,
        ExprKind::Call { .. } => Ending::Call,
        _ => Ending::Neither,
    }
}

#[tactic(auto, unfolding(cc_grammar::specs::Endings::tail_ending))]
fn tail_ending(last: &Suffix) -> Ending
    ensures { result ≡ endings.tail_ending last.now }
{
    match last {
        Suffix::Index(_) => Ending::Place,
        Suffix::Field { .. } => Ending::Place,
        Suffix::CallOn { .. } => Ending::Call,
    }
}

/// How a root with these tails ends.
#[tactic(auto, using(crate::proofs::EndingLaws::ending_none, crate::proofs::EndingLaws::ending_last))]
pub fn ending(base: &Expr, tail: &[Suffix]) -> Ending
    ensures { result ≡ endings.ending base.now tail.now }
{
    if tail.is_empty() {
        return root_ending(base);
    }
    tail_ending(&tail[tail.len() - 1])
}
