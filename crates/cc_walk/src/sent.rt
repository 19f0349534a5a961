ghost use Rattle.std.specs.Prelude.{◌≡◌, map, IfOk};
ghost use Rattle.cc_ops.specs.Classes.{all_kinds};
ghost use Rattle.cc_ops.specs.Values as values;
ghost use Rattle.cc_ops.specs.Machine.{value_of};

use cc_ops::{Kind, as_kind, no_void, value_at};
use ccpp_edge::List;
use global_ptr::Value;
use std::alloc::{AllocError, Global};

/// The values that a remote call sends to a function with these parameters: as many as they have cells, each of its cell's kind.
pub(crate) fn as_kinds(
    alloc: Global,
    params: &[List<Kind>],
    args: &[Value],
) -> Result<List<Value>, AllocError>
    ensures { IfOk result (λ sent. map value_of sent ≡ values.as_kinds (all_kinds params.now) (map value_of args.now)) }
{
    let mut sent = List::new(alloc);
    for kinds in params {
        for kind in kinds.as_slice() {
            let value = value_at(args, sent.len());
            sent.push(as_kind(*kind, value))?;
        }
    }
    Ok(sent)
}

/// The values that the constructor of a new processor's object is sent.
pub(crate) fn without_void(alloc: Global, args: &[Value]) -> Result<List<Value>, AllocError>
    ensures { IfOk result (λ sent. map value_of sent ≡ map values.no_void (map value_of args.now)) }
{
    let mut sent = List::new(alloc);
    for value in args {
        sent.push(no_void(*value))?;
    }
    Ok(sent)
}
