//! The rules of sharing, said of the tree: what an expression may break, and which rules a thing breaks by where it stands. The functions do
//! nothing: their contracts are the laws.
//!
//! The crate knows the definitions of what is collected while a program is read (`cc_types` and the crates below it). It must know nothing of the
//! core, of types and of steps.
#![tactic(auto)]

ghost use Rattle.std.specs.Prelude.{◌≡◌, []};
ghost use Rattle.cc_scopes.specs.Scope.{Context};
ghost use Rattle.cc_scopes.specs.declared.state.State.{State};
ghost use Rattle.cc_tree.specs.declared.declarations.Program.{Program};
ghost use Rattle.cc_tree.specs.declared.expressions.Expr.{Expr};
ghost use Rattle.cc_types.specs.Program.{rules_shared};
ghost use Rattle.cc_typing.specs.Expr.{expr};
ghost use Rattle.law_sharing.specs.Addresses.{SharesAddressesAlone};
ghost use Rattle.law_sharing.specs.Placed.{placed, items};

/// An expression declares nothing and leaves the scope as it is. Of the rules of sharing it breaks `PlainAddress` alone, at the line of its
/// statement.
pub fn expressions_share_addresses_alone()
    ensures { (cx : Context) (e : Expr) (s : State) → SharesAddressesAlone cx.line s (expr cx e s).1 }
{}

/// The rules that a program breaks by where a thing stands, `PrintInBranch` and `AtomicUsed`, are those of its tree, at the same lines and in
/// the order of the text: `PrintInBranch` at each `cout` outside of `main` or in a branch of it, and `AtomicUsed` at each atomic function.
/// So a program that breaks no rule of sharing has neither.
pub fn placed_rules_are_those_of_the_tree()
    ensures exact { (p : Program) → placed (rules_shared p) ≡ items p.items }
    ensures none { (p : Program) → rules_shared p ≡ [] → items p.items ≡ [] }
{}
