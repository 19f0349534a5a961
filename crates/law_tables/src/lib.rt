//! What the tables of a program are, without the counters that make them.
#![tactic(auto)]

ghost use Rattle.std.specs.Prelude.{◌≡◌, ℕ, ◌≤◌, List, ◌∷◌, ◌++◌, Some};
ghost use Rattle.cc_scopes.specs.Scope.{Context};
ghost use Rattle.cc_scopes.specs.declared.state.State.{State};
ghost use Rattle.cc_tables.specs.Tables.{class_of};
ghost use Rattle.cc_tree.specs.declared.declarations.ClassDecl.{ClassDecl};
ghost use Rattle.cc_tree.specs.declared.declarations.Function.{Function};
ghost use Rattle.cc_tree.specs.declared.declarations.Item.{Item};
ghost use Rattle.cc_tree.specs.declared.expressions.Expr.{Expr};
ghost use Rattle.cc_typing.specs.Whole.{array_length};
ghost use Rattle.law_tables.specs.Fields.{Fill};
ghost use Rattle.law_tables.specs.Ids.{HasOwnSignature, StandsBetween};

/// The fields of a class lie one behind another: within the cells of its objects, no two in one cell, and no cell left over.
pub fn fields_fill_their_object()
    ensures { (cx : Context) (functions : ℕ) (c : ClassDecl) → Fill (class_of cx functions c).members }
{}

/// The length of an array, where it breaks no rule, is 1 to 65,536.
pub fn lengths_are_in_range()
    ensures { (cx : Context) (e : Expr) (s : State) (n : ℕ) → (array_length cx e s).0 ≡ Some n → (1 ≤ n) × (n ≤ 65536) }
{}

/// Constants, classes and functions are numbered in the order of the text, each kind from 0; the functions of a class count among the
/// functions, at the place of their class. The number of a function of the file is that of its own signature.
pub fn ids_are_in_the_order_of_the_text()
    ensures names { (before : List Item) (x : Item) (after : List Item) → StandsBetween before x after }
    ensures signatures { (cx : Context) (before : List Item) (f : Function) (after : List Item) → HasOwnSignature cx before f after }
{}
