//! What a name means, without the search that finds it.
//!
//! The crate knows scopes and the names of a program. It must know nothing of statements.
#![tactic(auto)]

ghost use Rattle.std.specs.Prelude.{◌≡◌, List, Some, None};
ghost use Rattle.cc_names.specs.Table.{Name};
ghost use Rattle.cc_scopes.specs.Meaning.{meant};
ghost use Rattle.cc_scopes.specs.Scope.{Context, found_as, variable};
ghost use Rattle.cc_scopes.specs.declared.meaning.Meaning.{Meaning};
ghost use Rattle.cc_scopes.specs.declared.scope.Found.{Found};
ghost use Rattle.cc_scopes.specs.declared.state.Local.{Local};
ghost use Rattle.cc_scopes.specs.declared.state.State.{State};
ghost use Rattle.law_names.specs.Innermost.{IsInnermost, Means, NoVariable};

/// Of the variables in scope a name finds the innermost one: it has the name, and none that is declared behind it has. Where no variable
/// has the name, it finds none.
pub fn variable_is_innermost()
    ensures found { (name : Name) (scope : List Local) (found : Found) → variable name scope ≡ Some found
        → (l : Local) × IsInnermost name scope l × (found ≡ found_as l) }
    ensures innermost { (name : Name) (scope : List Local) (l : Local) → IsInnermost name scope l → variable name scope ≡ Some (found_as l) }
    ensures unknown { (name : Name) (scope : List Local) → variable name scope ≡ None → NoVariable name scope }
    ensures none { (name : Name) (scope : List Local) → NoVariable name scope → variable name scope ≡ None }
{}

/// A name means the innermost variable of that name, else the member of the own class, else the constant or the function of the file, and
/// nothing else.
pub fn one_meaning()
    ensures meant { (cx : Context) (name : Name) (s : State) → Means cx s.locals name (meant cx name s) }
    ensures one { (cx : Context) (name : Name) (s : State) (x : Meaning) → Means cx s.locals name x → x ≡ meant cx name s }
{}
