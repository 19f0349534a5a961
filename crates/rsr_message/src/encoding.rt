ghost use Rattle.std.specs.Prelude.{◌≡◌, ◌≢◌, ◌≤◌, length, All, OnOk, OnErr};
ghost use Rattle.global_ptr.specs.declared.values.Value.TheVariants.{Void};
ghost use Rattle.marshal.specs.Spellings.{Puts, Extends};
ghost use Rattle.rsr_message.specs.Requests.{version_2, Spells, SpellsBody, SpellsCall, SpellsList, SpellsSpot, IsAllowed, IsAllowedList};

use crate::kinds::MAGIC;
use crate::requests::{Body, Request};
use crate::versions::Version;
use ccpp_edge::{Bytes, List};
use global_ptr::{Spot, Value};
use marshal::{put_u16, put_u32, put_value};
use std::alloc::AllocError;

/// Puts the bytes of a request in version 2 at the end. Want of memory leaves `out` as it was.
pub fn encode(request: &Request, out: &mut Bytes) -> Result<(), AllocError>
    requires { IsAllowed version_2 request.now.body }
    ensures ok { OnOk result (Puts (Spells version_2 request.now) out.old out.new) }
    ensures err { OnErr result (out.new ≡ out.old) }
{
    let len = out.len();
    let put = append(request, out);
    if put.is_err() {
        out.truncate(len);
    }
    put
}

// Of what follows, want of memory may leave a part of the bytes at the end.
fn append(request: &Request, out: &mut Bytes) -> Result<(), AllocError>
    requires { IsAllowed version_2 request.now.body }
    ensures ok { OnOk result (Puts (Spells version_2 request.now) out.old out.new) }
    ensures err { OnErr result (Extends out.old out.new) }
{
    out.push(MAGIC)?;
    out.push(Version::Two.byte())?;
    out.push(request.body.kind().byte())?;
    put_u32(out, request.to)?;
    put_u32(out, request.from)?;
    put_u32(out, request.ticket)?;
    append_body(&request.body, out)
}

fn append_body(body: &Body, out: &mut Bytes) -> Result<(), AllocError>
    requires { IsAllowed version_2 body.now }
    ensures ok { OnOk result (Puts (SpellsBody version_2 body.now) out.old out.new) }
    ensures err { OnErr result (Extends out.old out.new) }
{
    match body {
        Body::Call {
            object,
            handler,
            args,
        } => append_call(*object, *handler, args, out),
        Body::Get { spot } => append_spot(*spot, out),
        Body::Put { spot, value } => {
            append_spot(*spot, out)?;
            put_value(out, *value)
        }
        Body::Make { class, args } => {
            put_u16(out, *class)?;
            append_list(args, out)
        }
        Body::Reply { value } => put_value(out, *value),
        Body::Cast {
            object,
            handler,
            args,
        } => append_call(*object, *handler, args, out),
    }
}

fn append_call(
    object: u32,
    handler: u16,
    args: &List<Value>,
    out: &mut Bytes,
) -> Result<(), AllocError>
    requires { IsAllowedList version_2 args.now }
    ensures ok { OnOk result (Puts (SpellsCall version_2 object handler args.now) out.old out.new) }
    ensures err { OnErr result (Extends out.old out.new) }
{
    put_u32(out, object)?;
    put_u16(out, handler)?;
    append_list(args, out)
}

fn append_spot(spot: Spot, out: &mut Bytes) -> Result<(), AllocError>
    ensures ok { OnOk result (Puts (SpellsSpot spot) out.old out.new) }
    ensures err { OnErr result (Extends out.old out.new) }
{
    put_u32(out, spot.object)?;
    put_u32(out, spot.offset)
}

fn append_list(args: &List<Value>, out: &mut Bytes) -> Result<(), AllocError>
    requires { IsAllowedList version_2 args.now }
    ensures ok { OnOk result (Puts (SpellsList version_2 args.now) out.old out.new) }
    ensures err { OnErr result (Extends out.old out.new) }
{
    put_u16(out, args.len() as u16)?;
    for value in args.as_slice() {
        put_value(out, *value)?;
    }
    Ok(())
}
