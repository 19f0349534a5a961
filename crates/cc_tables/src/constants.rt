ghost use Rattle.std.specs.Prelude.{◌≡◌, length, IfOk};
ghost use Rattle.cc_tables.specs.Tables as spec;
ghost use Rattle.cc_scopes.specs.Scope.{context};

use cc_names::{ClassId, Names};
use cc_scopes::{Scope, State, Tables, Ty};
use cc_tree::{Expr, Item};
use cc_typing::constant;
use ccpp_edge::List;
use std::alloc::{AllocError, Global};

/// Outside of every function, after so many constants.
pub fn outside<'a>(
    names: &'a Names,
    tables: &'a Tables,
    known: u32,
    class: Option<ClassId>,
    line: u32,
) -> Scope<'a>
    ensures { context result ≡ spec.outside names.now tables.now known class line }
{
    Scope {
        names,
        tables,
        known,
        class,
        result: Ty::Void,
        in_main: false,
        in_constructor: false,
        in_branch: false,
        in_loop: false,
        part: 0,
        start: 0,
        line,
    }
}

/// The value of a constant behind others, and none where it breaks a rule.
fn value_after(
    alloc: Global,
    names: &Names,
    before: &Tables,
    value: &Expr,
    line: u32,
) -> Result<Option<i64>, AllocError>
    ensures { IfOk result (λ n. n ≡ spec.value_after names.now before.now value.now line) }
{
    let Ok(known) = u32::try_from(before.constants.len()) else {
        return Err(AllocError);
    };
    let mut state = State::new(alloc);
    let scope = outside(names, before, known, None, line);
    constant(alloc, &scope, &mut state, value)
}

/// The constants of a program, each from those before it.
pub(crate) fn constants_of(
    alloc: Global,
    names: &Names,
    items: &[Item],
) -> Result<Tables, AllocError>
    ensures { IfOk result (λ tables. tables ≡ spec.constants_of names.now items.now) }
{
    let mut tables = Tables {
        classes: List::new(alloc),
        functions: List::new(alloc),
        constants: List::new(alloc),
    };
    for item in items {
        if let Item::Const { value, line, .. } = item {
            let value = value_after(alloc, names, &tables, value, *line)?;
            tables.constants.push(value)?;
        }
    }
    Ok(tables)
}
