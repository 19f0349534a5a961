ghost use Rattle.std.specs.Prelude.{◌≡◌};
ghost use Rattle.cc_functions.specs.Builds as spec;
ghost use Rattle.cc_functions.specs.Builds.{is_own_to};
ghost use Rattle.cc_functions.specs.OwnNests.{Tells};

use cc_tree::{Expr, ExprKind};

/// How many levels of a tree are read: more than the parser gives.
const MAX_DEPTH: usize = 1000;

/// Tells of expressions whether they begin with the own object, where `part` tells it of their parts to a depth. Only `is_own_to`
/// recurs.
#[derive(Clone, Copy)]
pub(crate) struct Owner<F> {
    pub(crate) depth: usize,
    pub(crate) part: F,
}

impl<F: Fn(usize, &Expr) -> bool> Owner<F> {
    pub(crate) fn part(&self, e: &Expr) -> bool
        requires { Tells self.now.depth (F.pre self.now.part) (F.post self.now.part) }
        ensures { result ≡ is_own_to self.now.depth e.now }
    {
        (self.part)(self.depth, e)
    }

    #[tactic(auto, unfolding(crate::specs::Builds::is_own))]
    pub(crate) fn is_own(&self, e: &Expr) -> bool
        requires { Tells self.now.depth (F.pre self.now.part) (F.post self.now.part) }
        ensures { result ≡ spec.is_own (is_own_to self.now.depth) e.now }
    {
        match &e.kind {
            ExprKind::Name(_) => true,
            ExprKind::This => true,
            ExprKind::Paren(part) => self.part(part.get()),
            ExprKind::Post { base, .. } => self.part(base.get()),
            _ => false,
        }
    }
}

pub(crate) fn is_own_to(depth: usize, e: &Expr) -> bool
    ensures { result ≡ is_own_to depth e.now }
{
    if depth == 0 {
        return false;
    }
    Owner {
        depth: depth - 1,
        part: is_own_to,
    }
    .is_own(e)
}

/// Whether an expression begins with a member's name or with `this->`.
pub(crate) fn names_own(e: &Expr) -> bool
    ensures { result ≡ spec.names_own e.now }
{
    is_own_to(MAX_DEPTH, e)
}
