//! Which declaration each name of a function means, as the text says it, without the state of the checker.
#![tactic(auto)]

ghost use Rattle.std.specs.Prelude.{◌≡◌, ℕ, List, [], ◌∷◌, Some};
ghost use Rattle.cc_elaboration.specs.Statements.{function_body, statement_to};
ghost use Rattle.cc_names.specs.Table.{Name};
ghost use Rattle.cc_scopes.specs.Scope.{Context, declare};
ghost use Rattle.cc_scopes.specs.declared.state.State.{State};
ghost use Rattle.cc_scopes.specs.declared.types.Declared.{Declared};
ghost use Rattle.cc_tree.specs.declared.expressions.Expr.{Expr};
ghost use Rattle.cc_tree.specs.declared.statements.Stmt.{Stmt};
ghost use Rattle.cc_typing.specs.Expr.{expr_to};
ghost use Rattle.law_scopes.specs.Text.{Declares, IsDeclaration, IsNearest, Matches, Text, in_each, marks_to};
ghost use Rattle.law_scopes.specs.Uses.{IsNamed, names_to};
ghost use Rattle.law_scopes.specs.Variables.{TypedNames};

/// Each variable in the core of an expression is the innermost one in scope of a name that stands in the text of the expression as a
/// value. An expression brings no variable into scope, takes none out of it, and makes none.
pub fn expressions_name_the_innermost()
    ensures names { (depth : ℕ) (cx : Context) (e : Expr) (s : State)
        → TypedNames (IsNamed (names_to depth e) s.locals) (expr_to depth cx e s).0 }
    ensures scope { (depth : ℕ) (cx : Context) (e : Expr) (s : State) → (expr_to depth cx e s).1.locals ≡ s.locals }
    ensures made { (depth : ℕ) (cx : Context) (e : Expr) (s : State) → (expr_to depth cx e s).1.made ≡ s.made }
{}

/// The scope of a declaration is the rest of its block. Where a function begins, behind each declaration and behind each statement a name
/// finds the declaration that the text says: back from there, past the blocks that are closed, the first one of the name; and as many
/// variables are made as are declared.
pub fn scopes_are_those_of_the_text()
    ensures begins { (s : State) → s.locals ≡ [] → s.made ≡ [] → Matches s [] }
    ensures declares { (cx : Context) (name : Name) (d : Declared) (s : State) (text : Text) → Matches s text
        → Matches (declare cx name d s).1 (Declares name ∷ text) }
    ensures statement { (depth : ℕ) (cx : Context) (b : Stmt) (s : State) (text : Text) → Matches s text
        → Matches (statement_to depth cx b s).1 (marks_to depth b text) }
    ensures body { (cx : Context) (bs : List Stmt) (s : State) (text : Text) → Matches s text
        → Matches (function_body cx bs s).1 (in_each (marks_to 1000) bs text) }
{}

/// So each variable in the core of an expression is the declaration that the text says for a name in the expression, by its number: how
/// many declarations of the function stand before it.
pub fn expressions_name_the_nearest()
    ensures { (depth : ℕ) (cx : Context) (e : Expr) (s : State) (text : Text) → Matches s text
        → TypedNames (IsNearest text (names_to depth e)) (expr_to depth cx e s).0 }
{}

/// Two names of a function have one number exactly where they mean one declaration.
pub fn one_number_one_declaration()
    ensures { (text : Text) (x y : Name) (before earlier : Text) (k : ℕ) → IsDeclaration text x before k → IsDeclaration text y earlier k
        → (x ≡ y) × (before ≡ earlier) }
{}
