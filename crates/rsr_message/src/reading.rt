//! What a whole message says. Nothing here is refused but memory.
ghost use Rattle.std.specs.Prelude.{◌≡◌, ◌≤◌, length, IfOk, OnErr};
ghost use Rattle.std.specs.Int.{w16, w32};
ghost use Rattle.marshal.specs.Spellings.{IsNumber, Takes, BeginsWith};
ghost use Rattle.marshal.specs.Values.{SpellsValue, IsValue};
ghost use Rattle.rsr_message.specs.Requests.{format_of, Spells, SpellsSpot, SpellsList, SpellsEach};
ghost use Rattle.rsr_message.specs.Shapes.{HasShape, HasBodyShape, IsListKind, IsBody, IsList, AreValues, BeginsWithValue};

use crate::kinds::{Head, Kind};
use crate::requests::{Body, Request};
use crate::versions::Version;
use ccpp_edge::List;
use global_ptr::{Spot, Value};
use marshal::{take_u16, take_u32, take_value};
use std::alloc::{AllocError, Global};

/// The request that a message with that head spells.
pub(crate) fn read(alloc: Global, head: Head, message: &[u8]) -> Result<Request, AllocError>
    requires { HasShape (format_of head.version) head.kind message.now }
    ensures ok { IfOk result (λ request. Spells (format_of head.version) request message.now) }
    ensures err { OnErr result (IsListKind head.kind) }
{
    let (to, rest) = next_u32(&message[3..]);
    let (from, rest) = next_u32(rest);
    let (ticket, rest) = next_u32(rest);
    let body = read_body(alloc, head, rest)?;
    Ok(Request {
        to,
        from,
        ticket,
        body,
    })
}

fn read_body(alloc: Global, head: Head, bytes: &[u8]) -> Result<Body, AllocError>
    requires { HasBodyShape head.kind (format_of head.version) bytes.now }
    ensures ok { IfOk result (IsBody (format_of head.version) head.kind bytes.now) }
    ensures err { OnErr result (IsListKind head.kind) }
{
    let Head { version, kind } = head;
    match kind {
        Kind::Call => {
            let (object, rest) = next_u32(bytes);
            let (handler, rest) = next_u16(rest);
            let args = read_list(alloc, version, rest)?;
            Ok(Body::Call {
                object,
                handler,
                args,
            })
        }
        Kind::Get => {
            let (spot, _) = next_spot(bytes);
            Ok(Body::Get { spot })
        }
        Kind::Put => {
            let (spot, rest) = next_spot(bytes);
            let value = read_value(rest);
            Ok(Body::Put { spot, value })
        }
        Kind::Make => {
            let (class, rest) = next_u16(bytes);
            let args = read_list(alloc, version, rest)?;
            Ok(Body::Make { class, args })
        }
        Kind::Reply => {
            let value = read_value(bytes);
            Ok(Body::Reply { value })
        }
        Kind::Cast => {
            let (object, rest) = next_u32(bytes);
            let (handler, rest) = next_u16(rest);
            let args = read_list(alloc, version, rest)?;
            Ok(Body::Cast {
                object,
                handler,
                args,
            })
        }
    }
}

fn read_list(alloc: Global, version: Version, bytes: &[u8]) -> Result<List<Value>, AllocError>
    requires { IsList (format_of version) bytes.now }
    ensures { IfOk result (λ values. SpellsList (format_of version) values bytes.now) }
{
    let values = &bytes[version.count_len()..];
    read_values(alloc, values)
}

fn read_values(alloc: Global, bytes: &[u8]) -> Result<List<Value>, AllocError>
    requires { AreValues bytes.now }
    ensures { IfOk result (λ values. SpellsEach values bytes.now) }
{
    let mut values = List::new(alloc);
    let mut rest = bytes;
    while !rest.is_empty() {
        let (value, len) = next_value(rest);
        values.push(value)?;
        rest = &rest[len..];
    }
    Ok(values)
}

fn read_value(bytes: &[u8]) -> Value
    requires { IsValue bytes.now }
    ensures { SpellsValue result bytes.now }
{
    let (value, _) = next_value(bytes);
    value
}

fn next_value(bytes: &[u8]) -> (Value, usize)
    requires { BeginsWithValue bytes.now }
    ensures { BeginsWith (SpellsValue result.0) bytes.now result.1 }
{
    match take_value(bytes) {
        Ok(found) => found,
        Err(_) => unreachable!(),
    }
}

fn next_spot(bytes: &[u8]) -> (Spot, &[u8])
    requires { 8 ≤ length bytes.now }
    ensures { Takes (SpellsSpot result.0) bytes.now result.1.now }
{
    let (object, rest) = next_u32(bytes);
    let (offset, rest) = next_u32(rest);
    (Spot { object, offset }, rest)
}

fn next_u32(bytes: &[u8]) -> (u32, &[u8])
    requires { 4 ≤ length bytes.now }
    ensures { Takes (IsNumber w32 result.0) bytes.now result.1.now }
{
    match take_u32(bytes) {
        Some(found) => found,
        None => unreachable!(),
    }
}

fn next_u16(bytes: &[u8]) -> (u16, &[u8])
    requires { 2 ≤ length bytes.now }
    ensures { Takes (IsNumber w16 result.0) bytes.now result.1.now }
{
    match take_u16(bytes) {
        Some(found) => found,
        None => unreachable!(),
    }
}
