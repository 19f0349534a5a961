ghost use Rattle.std.specs.Prelude.{◌≡◌, ◌++◌, map, OnOk};
ghost use Rattle.cc_ops.specs.Machine.{value_of};
ghost use Rattle.cc_core.specs.View.{part_of};
ghost use Rattle.cc_core.specs.Effects.{printed};

use cc_core::PrintPart;
use cc_ops::{int_of, value_at};
use ccpp_edge::Bytes;
use global_ptr::Value;
use std::alloc::{AllocError, Global};

/// Writes the parts of what is printed behind the output.
pub(crate) fn print(
    alloc: Global,
    output: &mut Bytes,
    parts: &[PrintPart],
    args: &[Value],
) -> Result<(), AllocError>
    ensures { OnOk result (output.new ≡ output.old ++ printed (map part_of parts.now) (map value_of args.now)) }
{
    let mut next = 0;
    for part in parts {
        match part {
            PrintPart::Number => {
                let number = int_of(value_at(args, next));
                let text = format!(in alloc; "{number}")?;
                output.extend_from_slice(text.as_bytes())?;
                next += 1;
            }
            PrintPart::Text(bytes) => output.extend_from_slice(bytes.as_slice())?,
            PrintPart::Endl => output.push(b'\n')?,
        }
    }
    Ok(())
}
