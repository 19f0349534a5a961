ghost use Rattle.std.specs.Prelude.{◌≡◌, OnOk, OnErr};
ghost use Rattle.marshal.specs.Spellings.{Puts, Extends};
ghost use Rattle.marshal.specs.Values.{SpellsValue};

use crate::numbers::put_u32;
use crate::tags::{ADDRESS, INT, NULL, VOID};
use ccpp_edge::Bytes;
use global_ptr::{Addr, Value};
use std::alloc::AllocError;

/// Puts the bytes of a value at the end. Want of memory leaves `out` as it was.
pub fn put_value(out: &mut Bytes, value: Value) -> Result<(), AllocError>
    ensures ok { OnOk result (Puts (SpellsValue value) out.old out.new) }
    ensures err { OnErr result (out.new ≡ out.old) }
{
    let len = out.len();
    let put = append_value(out, value);
    if put.is_err() {
        out.truncate(len);
    }
    put
}

// Want of memory may leave a part of the bytes at the end.
fn append_value(out: &mut Bytes, value: Value) -> Result<(), AllocError>
    ensures ok { OnOk result (Puts (SpellsValue value) out.old out.new) }
    ensures err { OnErr result (Extends out.old out.new) }
{
    match value {
        Value::Void => out.push(VOID),
        Value::Int(n) => {
            out.push(INT)?;
            out.extend_from_slice(&n.to_be_bytes())
        }
        Value::Null => out.push(NULL),
        Value::Ptr(address) => {
            let Addr {
                processor,
                object,
                offset,
            } = address;
            out.push(ADDRESS)?;
            put_u32(out, processor)?;
            put_u32(out, object)?;
            put_u32(out, offset)
        }
    }
}
