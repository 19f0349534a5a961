ghost use Rattle.std.specs.Prelude.{◌≡◌, [], ◌∷◌, length, map, IfOk};
ghost use Rattle.cc_ops.specs.Machine.{value_of};
ghost use Rattle.cc_core.specs.Numbers.{first_numbers};
ghost use Rattle.cc_core.specs.Steps as steps;
ghost use Rattle.cc_core.specs.View.{program_of};
ghost use Rattle.cc_types.specs.Program.{core_program, main_params};
ghost use Rattle.numbered_runs.specs.Alike.{first_machine, ints};
ghost use Rattle.numbered_runs.specs.Stands.{Stands};
ghost use Rattle.numbered_runs.specs.Steps.{settle};
ghost use Rattle.stack_code.specs.View.{code_of};
ghost use Rattle.cc_walk.specs.Begins.{entering, entered_runner};
ghost use Rattle.cc_walk.specs.Views.{machine_of};

use crate::live::{Inside, Live};
use crate::news::News;
use crate::parameters::parameters;
use crate::table::Table;
use crate::walk::Walk;
use cc_lower::lower;
use cc_types::Checked;
use ccpp_edge::{Bytes, List};
use code_thread::{Thread, parameters as kinds_of};
use global_ptr::Value;
use stack_code::Code;
use std::alloc::{AllocError, Global};
use walk_objects::Objects;

impl Walk {
    /// The walk at the start of a run of a program from as many ints as `main` has parameters.
    pub fn start(alloc: Global, checked: &Checked, args: &[i64]) -> Result<Walk, AllocError>
        requires count { length args.now ≡ main_params checked.now.items }
        ensures machine { let p = program_of (core_program checked.now) in IfOk result (λ walk. machine_of walk ≡ first_machine p args.now) }
        ensures stands { let p = program_of (core_program checked.now) in
            IfOk result (λ walk. Stands p (machine_of walk) (steps.start p args.now) (first_numbers p args.now)) }
    {
        let _well_formed = checked.program();
        let program = checked.core();
        let code = lower(alloc, program)?;
        let args = int_values(alloc, args)?;
        Walk::entered(alloc, code, program.main, args.as_slice())
    }

    /// The walk of code whose first thread has entered a function.
    fn entered(alloc: Global, code: Code, function: u32, args: &[Value]) -> Result<Walk, AllocError>
        ensures { IfOk result (λ walk. machine_of walk ≡ entering (code_of code) function (map value_of args.now)) }
    {
        let mut objects = Objects::new(alloc);
        objects.add_processor()?;
        let kinds = kinds_of(&code, function);
        let addresses = parameters(alloc, &mut objects, 0, kinds, args)?;
        let table = first_table(alloc, &code, function, addresses.as_slice())?;
        Ok(Walk {
            alloc,
            code,
            objects,
            table,
            output: Bytes::new(alloc),
            news: News::none(),
        })
    }
}

/// The table of one thread, which has entered a function with these addresses of its parameters.
fn first_table(
    alloc: Global,
    code: &Code,
    function: u32,
    addresses: &[Value],
) -> Result<Table, AllocError>
    ensures { let code = code_of code.now in
        IfOk result (λ table. table ≡ (settle code (entered_runner code function (map value_of addresses.now)) ∷ []) ∷ []) }
{
    let thread = Thread::entered(alloc, code, function, Value::Void, addresses)?;
    let mut live = Live::new(alloc, thread);
    live.inside.push(Inside {
        function,
        object: Value::Void,
    })?;
    let end = live.settle(code)?;
    let mut table = Table::new(alloc);
    table.add_processor()?;
    table.push(0, live.state(alloc, end)?)?;
    Ok(table)
}

/// Ints as values.
fn int_values(alloc: Global, args: &[i64]) -> Result<List<Value>, AllocError>
    ensures { IfOk result (λ values. map value_of values ≡ ints args.now) }
{
    let mut values = List::new(alloc);
    for arg in args {
        values.push(Value::Int(*arg))?;
    }
    Ok(values)
}
