ghost use Rattle.std.specs.Prelude.{◌≡◌, ◌<◌, length, MatchOption, OnOk, OnErr};
ghost use Rattle.std.specs.Int.{w16, w32};
ghost use Rattle.marshal.specs.Spellings.{IsNumber, Takes, Puts};

use ccpp_edge::Bytes;
use std::alloc::AllocError;

/// The number in the first two bytes, the highest first, and the bytes behind it. `None` comes exactly where there are fewer.
pub fn take_u16(bytes: &[u8]) -> Option<(u16, &[u8])>
    ensures { MatchOption result (length bytes.now < 2) (λ found. Takes (IsNumber w16 found.0) bytes.now found.1.now) }
{
    let (number, rest) = bytes.split_first_chunk::<2>()?;
    Some((u16::from_be_bytes(*number), rest))
}

/// The number in the first four bytes, the highest first, and the bytes behind it. `None` comes exactly where there are fewer.
pub fn take_u32(bytes: &[u8]) -> Option<(u32, &[u8])>
    ensures { MatchOption result (length bytes.now < 4) (λ found. Takes (IsNumber w32 found.0) bytes.now found.1.now) }
{
    let (number, rest) = bytes.split_first_chunk::<4>()?;
    Some((u32::from_be_bytes(*number), rest))
}

/// Puts a number at the end in two bytes, the highest first. Want of memory leaves `out` as it was.
pub fn put_u16(out: &mut Bytes, n: u16) -> Result<(), AllocError>
    ensures ok { OnOk result (Puts (IsNumber w16 n) out.old out.new) }
    ensures err { OnErr result (out.new ≡ out.old) }
{
    out.extend_from_slice(&n.to_be_bytes())
}

/// Puts a number at the end in four bytes, the highest first. Want of memory leaves `out` as it was.
pub fn put_u32(out: &mut Bytes, n: u32) -> Result<(), AllocError>
    ensures ok { OnOk result (Puts (IsNumber w32 n) out.old out.new) }
    ensures err { OnErr result (out.new ≡ out.old) }
{
    out.extend_from_slice(&n.to_be_bytes())
}
