ghost use Rattle.std.specs.Prelude.{◌≡◌, ℕ, ◌<◌, ◌↔◌, length, IfOk, IsErrOf, MatchOption};
ghost use Rattle.global_ptr.specs.declared.values.Value.{Value};
ghost use Rattle.marshal.specs.Spellings.{BeginsWith, IsPartial, IsWrongAt, IsSignedNumber};
ghost use Rattle.marshal.specs.Values.{SpellsValue, SpellsAddress, IsValue, Reads};

use crate::numbers::take_u32;
use crate::tags::{ADDRESS, INT, NULL, VOID};
use global_ptr::{Addr, Value};

/// Why bytes do not begin with a value.
#[derive(Clone, Copy, Debug, PartialEq, Eq)]
pub enum ValueFault {
    /// They are less than a whole value.
    Short,
    /// The first byte, at place 0, is no tag.
    BadTag {
        /// Its place.
        at: u32,
    },
}

/// The value with which the bytes begin, and how many bytes it has. Other bytes may follow it.
pub fn take_value(bytes: &[u8]) -> Result<(Value, usize), ValueFault>
    ensures found { IfOk result (λ found. BeginsWith (SpellsValue found.0) bytes.now found.1) }
    ensures value { (value : Value) (n : ℕ) → BeginsWith (SpellsValue value) bytes.now n → result ≡ Ok (value, n) }
    ensures short { IsErrOf result ValueFault.Short ↔ IsPartial IsValue bytes.now }
    ensures bad_tag { (at : ℕ) → IsErrOf result (ValueFault.BadTag at) ↔ IsWrongAt IsValue bytes.now at }
    ensures place { (at : ℕ) → IsErrOf result (ValueFault.BadTag at) → at ≡ 0 }
{
    read_value(bytes)
}

fn read_value(bytes: &[u8]) -> Result<(Value, usize), ValueFault>
    ensures { Reads bytes.now result }
{
    let Some((tag, rest)) = bytes.split_first() else {
        return Err(ValueFault::Short);
    };
    match *tag {
        VOID => Ok((Value::Void, 1)),
        INT => match read_number(rest) {
            Some(n) => Ok((Value::Int(n), 9)),
            None => Err(ValueFault::Short),
        },
        NULL => Ok((Value::Null, 1)),
        ADDRESS => match read_address(rest) {
            Some(address) => Ok((Value::Ptr(address), 13)),
            None => Err(ValueFault::Short),
        },
        _ => Err(ValueFault::BadTag { at: 0 }),
    }
}

fn read_number(bytes: &[u8]) -> Option<i64>
    ensures { MatchOption result (length bytes.now < 8) (λ n. BeginsWith (IsSignedNumber n) bytes.now 8) }
{
    let (number, _) = bytes.split_first_chunk::<8>()?;
    Some(i64::from_be_bytes(*number))
}

fn read_address(bytes: &[u8]) -> Option<Addr>
    ensures { MatchOption result (length bytes.now < 12) (λ address. BeginsWith (SpellsAddress address) bytes.now 12) }
{
    let (processor, bytes) = take_u32(bytes)?;
    let (object, bytes) = take_u32(bytes)?;
    let (offset, _) = take_u32(bytes)?;
    Some(Addr {
        processor,
        object,
        offset,
    })
}
