ghost use Rattle.std.specs.Prelude.{◌≡◌, ◌≢◌, ◌<◌, true, length, map, IfOk, IfSome, MatchOption};
ghost use Rattle.cc_ops.specs.Classes.{all_kinds};
ghost use Rattle.cc_ops.specs.Values as values;
ghost use Rattle.cc_ops.specs.Machine.{value_of};
ghost use Rattle.cc_core.specs.Asks as asks;
ghost use Rattle.cc_core.specs.Config.{Config};
ghost use Rattle.cc_core.specs.Core.{Program, function_shape, class_shape};
ghost use Rattle.cc_core.specs.Next.{call_ask, spawn_ask, object_ask};
ghost use Rattle.cc_core.specs.Core as core;
ghost use Rattle.cc_core.specs.Numbers.{Numbers};
ghost use Rattle.stack_code.specs.View.{code_of};
ghost use Rattle.code_thread.specs.View.{ask_of};
ghost use Rattle.numbered_runs.specs.Machine.{thread_in};
ghost use Rattle.numbered_runs.specs.Posts.{posts, posted};
ghost use Rattle.numbered_runs.specs.Stands.{Stands};
ghost use Rattle.rsr_message.specs.Requests.{version_2, IsAllowed, IsAllowedList};
ghost use Rattle.cc_walk.specs.Posted.{IsSaid, IsPosted, AsksFor, IsSendable};
ghost use Rattle.cc_walk.specs.Views.{machine_of};

use crate::arguments::{after_first, first_of};
use crate::sent::{as_kinds, without_void};
use crate::walk::Walk;
use cc_core::How;
use cc_ops::ThreadNo;
use ccpp_edge::List;
use code_thread::{Ask, Look};
use global_ptr::{Addr, Spot, Value};
use rsr_message::{Body, Request};
use stack_code::Code;
use std::alloc::{AllocError, Global};

/// To whom a request goes that asks for a new processor.
const ANYBODY: u32 = u32::MAX;

impl Walk {
    /// The request that the next move of a thread would post: `None` exactly where the thread does not live, or its next move is no
    /// remote operation, or is one on a null pointer. It can be spelled.
    pub fn asks(&self, t: ThreadNo) -> Result<Option<Request>, AllocError>
        ensures request { let w = machine_of self.now in IfOk result (IsPosted t (posts w.code (thread_in w.threads t))) }
        ensures follows { (p : Program) (s : Config) (n : Numbers) → Stands p (machine_of self.now) s n → IfOk result (AsksFor p s n t) }
        ensures allowed { IfOk result (λ request. IfSome request (λ r. IsAllowed version_2 r.body)) }
    {
        let Some(ask) = self.asking(t) else {
            return Ok(None);
        };
        let Some((to, body)) = posted(self.alloc, &self.code, &ask)? else {
            return Ok(None);
        };
        Ok(Some(Request {
            to,
            from: t.processor,
            ticket: t.thread,
            body,
        }))
    }

    /// What a thread asks by its next move, where it lives and waits for no remote call.
    fn asking(&self, t: ThreadNo) -> Option<Ask<'_>>
        ensures { let w = machine_of self.now in let post = posts w.code (thread_in w.threads t) in let h = w.code.shapes in
            MatchOption result (post ≡ None) (λ ask. (post ≡ posted (ask_of h ask)) × IsSendable h (ask_of h ask)) }
    {
        self.code.is_valid();
        let live = self.table.live(t)?;
        let Look::Asks(_, ask) = live.thread.look(&self.code) else {
            return None;
        };
        match live.asked {
            Some(_) => None,
            None => Some(ask),
        }
    }
}

/// What an ask posts, and to which processor.
fn posted(alloc: Global, code: &Code, ask: &Ask) -> Result<Option<(u32, Body)>, AllocError>
    requires { let h = (code_of code.now).shapes in IsSendable h (ask_of h ask.now) }
    ensures said { IfOk result (IsSaid (posted (ask_of (code_of code.now).shapes ask.now))) }
    ensures allowed { IfOk result (λ said. IfSome said (λ e. IsAllowed version_2 e.1)) }
{
    match *ask {
        Ask::Reads(true, from) => Ok(get(from)),
        Ask::Writes(true, to, value) => Ok(put(to, value)),
        Ask::Calls(How::Remote, function, args) => call(alloc, code, function, args),
        Ask::Spawns(How::Remote, function, args) => cast(alloc, code, function, args),
        Ask::Constructs(true, class, args) => make(alloc, code, class, args),
        _ => Ok(None),
    }
}

/// A read of the cell at an address.
fn get(from: Value) -> Option<(u32, Body)>
    ensures said { IsSaid (posted (asks.Reads true (value_of from))) result }
    ensures allowed { IfSome result (λ e. IsAllowed version_2 e.1) }
{
    let Value::Ptr(at) = from else {
        return None;
    };
    let spot = spot_of(at);
    Some((at.processor, Body::Get { spot }))
}

/// A write of a value to the cell at an address.
fn put(to: Value, value: Value) -> Option<(u32, Body)>
    requires { value_of value ≢ values.Void }
    ensures said { IsSaid (posted (asks.Writes true (value_of to) (value_of value))) result }
    ensures allowed { IfSome result (λ e. IsAllowed version_2 e.1) }
{
    let Value::Ptr(at) = to else {
        return None;
    };
    let spot = spot_of(at);
    Some((at.processor, Body::Put { spot, value }))
}

/// A call of a function of the object that the first argument leads to.
fn call(
    alloc: Global,
    code: &Code,
    function: u32,
    args: &[Value],
) -> Result<Option<(u32, Body)>, AllocError>
    requires { function < length (code_of code.now).shapes.functions }
    ensures said { let shape = function_shape (code_of code.now).shapes function in
        IfOk result (IsSaid (posted (call_ask shape core.Remote function (map value_of args.now)))) }
    ensures allowed { IfOk result (λ said. IfSome said (λ e. IsAllowed version_2 e.1)) }
{
    let Value::Ptr(at) = first_of(args) else {
        return Ok(None);
    };
    let body = Body::Call {
        object: at.object,
        handler: handler(code, function),
        args: sent(alloc, code, function, args)?,
    };
    Ok(Some((at.processor, body)))
}

/// A thread that makes a call of a function of the object that the first argument leads to.
fn cast(
    alloc: Global,
    code: &Code,
    function: u32,
    args: &[Value],
) -> Result<Option<(u32, Body)>, AllocError>
    requires { function < length (code_of code.now).shapes.functions }
    ensures said { let shape = function_shape (code_of code.now).shapes function in
        IfOk result (IsSaid (posted (spawn_ask shape core.Remote function (map value_of args.now)))) }
    ensures allowed { IfOk result (λ said. IfSome said (λ e. IsAllowed version_2 e.1)) }
{
    let Value::Ptr(at) = first_of(args) else {
        return Ok(None);
    };
    let body = Body::Cast {
        object: at.object,
        handler: handler(code, function),
        args: sent(alloc, code, function, args)?,
    };
    Ok(Some((at.processor, body)))
}

/// A new processor with an object of a class.
fn make(
    alloc: Global,
    code: &Code,
    class: u32,
    args: &[Value],
) -> Result<Option<(u32, Body)>, AllocError>
    requires there { class < length (code_of code.now).shapes.classes }
    requires count { length args.now ≡ (class_shape (code_of code.now).shapes class).params }
    ensures said { IfOk result (IsSaid (posted (object_ask true class (map value_of args.now)))) }
    ensures allowed { IfOk result (λ said. IfSome said (λ e. IsAllowed version_2 e.1)) }
{
    let classes = code.classes();
    prove!(class < classes);
    let _shape = code.shape(class);
    let body = Body::Make {
        class: class as u16,
        args: without_void(alloc, args)?,
    };
    Ok(Some((ANYBODY, body)))
}

/// The values that a remote call sends, behind its object.
fn sent(
    alloc: Global,
    code: &Code,
    function: u32,
    args: &[Value],
) -> Result<List<Value>, AllocError>
    requires { function < length (code_of code.now).shapes.functions }
    ensures values { let kinds = all_kinds (function_shape (code_of code.now).shapes function).params in
        IfOk result (λ sent. map value_of sent ≡ values.as_kinds kinds (values.after_first (map value_of args.now))) }
    ensures allowed { IfOk result (IsAllowedList version_2) }
{
    let shape = code.fun(function);
    as_kinds(alloc, shape.params.as_slice(), after_first(args))
}

/// The number of a function, by which a request names it.
fn handler(code: &Code, function: u32) -> u16
    requires { function < length (code_of code.now).shapes.functions }
    ensures { result ≡ function }
{
    let functions = code.functions();
    prove!(function < functions);
    function as u16
}

/// The cell at an address, on its processor.
fn spot_of(at: Addr) -> Spot
    ensures object { result.object ≡ at.object }
    ensures offset { result.offset ≡ at.offset }
{
    Spot {
        object: at.object,
        offset: at.offset,
    }
}
