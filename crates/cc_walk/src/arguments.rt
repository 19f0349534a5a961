ghost use Rattle.std.specs.Prelude.{◌≡◌, map};
ghost use Rattle.cc_ops.specs.Values as values;
ghost use Rattle.cc_ops.specs.Machine.{value_of};

use global_ptr::Value;

/// The first value, void where there is none.
pub(crate) fn first_of(args: &[Value]) -> Value
    ensures { value_of result ≡ values.first (map value_of args.now) }
{
    match args {
        [] => Value::Void,
        [first, ..] => *first,
    }
}

/// The values behind the first one.
pub(crate) fn after_first(args: &[Value]) -> &[Value]
    ensures { map value_of result.now ≡ values.after_first (map value_of args.now) }
{
    match args {
        [] => &[],
        [_, rest @ ..] => rest,
    }
}
