ghost use Rattle.std.specs.Prelude.{◌≡◌, map};
ghost use Rattle.cc_ops.specs.Machine.{value_of};
ghost use Rattle.stack_code.specs.View.{code_of};
ghost use Rattle.numbered_runs.specs.Effects.{note_held, leave, leave_all};
ghost use Rattle.cc_walk.specs.Views.{inside_of};

use crate::live::Inside;
use code_thread::{Stack, is_atomic};
use global_ptr::Value;
use stack_code::Code;
use walk_objects::Objects;

/// Notes that a thread has entered a function of an object, or has left it: one that is atomic holds the object.
pub(crate) fn note_held(
    code: &Code,
    objects: &mut Objects,
    function: u32,
    object: Value,
    held: bool,
)
    ensures { objects.new ≡ note_held (code_of code.now).shapes function (value_of object) held objects.old }
{
    let Value::Ptr(at) = object else {
        return;
    };
    if is_atomic(code, function) {
        objects.set_held(at, held);
    }
}

/// Notes that a thread has left the innermost function that it is inside, if any.
#[tactic(auto, using(crate::proofs::HolderLaws::left_innermost, crate::proofs::HolderLaws::left_none))]
pub(crate) fn leave_innermost(code: &Code, objects: &mut Objects, inside: &Stack<Inside>)
    ensures { objects.new ≡ leave (code_of code.now).shapes (map inside_of inside.now) objects.old }
{
    if let Some(left) = inside.top() {
        note_held(code, objects, left.function, left.object, false);
    }
}

/// Notes that a thread has left all functions that it was inside.
pub(crate) fn leave_all(code: &Code, objects: &mut Objects, mut inside: Stack<Inside>)
    ensures { objects.new ≡ leave_all (code_of code.now).shapes (map inside_of inside) objects.old }
{
    while let Some(left) = inside.pop() {
        note_held(code, objects, left.function, left.object, false);
    }
}
