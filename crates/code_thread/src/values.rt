ghost use Rattle.std.specs.Prelude.{◌≡◌, map, get_or, IfOk};
ghost use Rattle.cc_ops.specs.Values as values;
ghost use Rattle.cc_ops.specs.Machine.{value_of};

use ccpp_edge::List;
use global_ptr::Value;
use std::alloc::{AllocError, Global};

/// The address at a place, and null where there is none.
pub(crate) fn address_at(given: &[Value], at: usize) -> Value
    ensures { value_of result ≡ get_or (map value_of given.now) at values.Null }
{
    given.get(at).copied().unwrap_or(Value::Null)
}

/// The first values, so many, with null for each that is missing.
pub(crate) fn resized(
    alloc: Global,
    count: usize,
    given: &[Value],
) -> Result<List<Value>, AllocError>
    ensures { IfOk result (λ list. map value_of list ≡ values.resized count (map value_of given.now)) }
{
    let mut list = List::new(alloc);
    for k in 0..count {
        list.push(address_at(given, k))?;
    }
    Ok(list)
}
