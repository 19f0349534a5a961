//! That what is said of an expression or a statement does not come from the bound of a definition.
#![tactic(auto)]

ghost use Rattle.std.specs.Prelude.{◌≡◌, ℕ, ◌≤◌};
ghost use Rattle.cc_elaboration.specs.Statements.{statement_to};
ghost use Rattle.cc_functions.specs.Builds.{is_own_to};
ghost use Rattle.cc_scopes.specs.Scope.{Context};
ghost use Rattle.cc_scopes.specs.declared.state.State.{State};
ghost use Rattle.cc_tree.specs.declared.expressions.Expr.{Expr};
ghost use Rattle.cc_tree.specs.declared.statements.Stmt.{Stmt};
ghost use Rattle.cc_typing.specs.Expr.{expr_to};
ghost use Rattle.law_depth.specs.Depth.{NestsTo, StatementNestsTo};

/// Where an expression or a statement nests no deeper than a bound, what it is and collects is the same for every larger bound, and so is
/// whether an expression begins with the own object. So the bound of 1,000, within which each program nests, answers nothing by itself.
pub fn no_answer_comes_from_a_bound()
    ensures expressions { (d m : ℕ) (cx : Context) (e : Expr) (s : State) → d ≤ m → NestsTo d e → expr_to m cx e s ≡ expr_to d cx e s }
    ensures statements { (d m : ℕ) (cx : Context) (b : Stmt) (s : State) → d ≤ m → StatementNestsTo d b
        → statement_to m cx b s ≡ statement_to d cx b s }
    ensures own { (d m : ℕ) (e : Expr) → d ≤ m → NestsTo d e → is_own_to m e ≡ is_own_to d e }
{}
