ghost use Rattle.std.specs.Prelude.{◌≡◌, map, drop, IfOk, OnOk};
ghost use Rattle.cc_ops.specs.Machine.{value_of, cell_of};
ghost use Rattle.cc_core.specs.Effects.{cells_with};
ghost use Rattle.numbered_runs.specs.Effects.{parameters, put_things, addresses};

use cc_ops::{Cell, Kind, value_at};
use ccpp_edge::List;
use global_ptr::Value;
use std::alloc::{AllocError, Global};
use walk_objects::Objects;

/// Makes the objects of parameters on a processor, of which each takes as many values as it has cells, and gives their addresses.
pub(crate) fn parameters(
    alloc: Global,
    objects: &mut Objects,
    processor: u32,
    params: &[List<Kind>],
    args: &[Value],
) -> Result<List<Value>, AllocError>
    ensures addresses { IfOk result (λ made. map value_of made
        ≡ addresses objects.old (parameters processor params.now (map value_of args.now))) }
    ensures objects { OnOk result (objects.new ≡ put_things objects.old (parameters processor params.now (map value_of args.now))) }
{
    let mut made = List::new(alloc);
    let mut args = args;
    for kinds in params {
        let cells = cells_with(alloc, kinds.as_slice(), args)?;
        made.push(objects.make(processor, cells)?)?;
        args = after(args, kinds.len());
    }
    Ok(made)
}

/// New cells of these kinds with these start values.
fn cells_with(alloc: Global, kinds: &[Kind], args: &[Value]) -> Result<List<Cell>, AllocError>
    ensures { IfOk result (λ cells. map cell_of cells ≡ cells_with kinds.now (map value_of args.now)) }
{
    let mut cells = List::new(alloc);
    for (k, kind) in kinds.iter().enumerate() {
        cells.push(Cell::started(*kind, value_at(args, k)))?;
    }
    Ok(cells)
}

/// The values behind the first ones, so many.
fn after(args: &[Value], count: usize) -> &[Value]
    ensures { result.now ≡ drop count args.now }
{
    match args.get(count..) {
        Some(rest) => rest,
        None => &[],
    }
}
