ghost use Rattle.std.specs.Prelude.{◌≡◌, ◌++◌, ◌^◌, ◌<◌, map, replicate, IfOk, OnOk};
ghost use Rattle.cc_ops.specs.Values.{fresh};
ghost use Rattle.cc_ops.specs.Classes as spec;
ghost use Rattle.cc_ops.specs.Machine.{value_of, cell_of, same_address, IsBuilt};
ghost use Rattle.cc_ops.specs.Shapes.{shape_of};

use crate::build::BuildSet;
use crate::build_error::BuildError;
use crate::cell::Cell;
use crate::kind::Kind;
use ccpp_edge::{List, Text};
use global_ptr::Value;
use std::alloc::{AllocError, Global};

/// Some cells of one kind, one behind another.
#[derive(Clone, Copy, Debug)]
pub struct CellRun {
    pub kind: Kind,
    pub count: u32,
}

/// A class: the cells of its objects, and its constructor.
#[derive(Debug, Drop)]
pub struct ClassShape {
    /// The cells in order.
    pub cells: List<CellRun>,
    /// The number of values that the constructor takes.
    pub params: u32,
    /// The constructor's assignments in order.
    pub sets: List<BuildSet>,
}

/// What a call needs to know of a function.
#[derive(Debug, Drop)]
pub struct FunShape {
    /// The name as listed: of a member `C.NAME`.
    pub name: Text,
    /// The line of the function's declaration.
    pub line: u32,
    /// The kinds of each parameter's cells.
    pub params: List<List<Kind>>,
    /// The number of variables, parameters included.
    pub vars: u32,
    /// Whether its execution is not interleaved with that of another atomic function of the same object.
    pub atomic: bool,
}

impl ClassShape {
    /// The number of cells of an object.
    pub fn size(&self) -> u64
        requires { spec.size self.now.cells < 2 ^ 64 }
        ensures { result ≡ spec.size self.now.cells }
    {
        let mut size = 0;
        for run in self.cells.as_slice() {
            size += u64::from(run.count);
        }
        size
    }

    /// The cells of a new object, made from the arguments of its constructor: its assignments are made in order, and the first
    /// fault counts.
    pub fn construct(&self, alloc: Global, args: &[Value]) -> Result<List<Cell>, BuildError>
        ensures { IsBuilt result (spec.construct same_address (shape_of self.now) (map value_of args.now)) }
    {
        let mut cells = self.fresh_cells(alloc)?;
        for set in self.sets.as_slice() {
            set.assign(&mut cells, args)?;
        }
        Ok(cells)
    }

    /// The cells of an object before its constructor.
    fn fresh_cells(&self, alloc: Global) -> Result<List<Cell>, AllocError>
        ensures { IfOk result (λ cells. map cell_of cells ≡ spec.fresh_cells self.now.cells) }
    {
        let mut cells = List::new(alloc);
        for run in self.cells.as_slice() {
            run.push_fresh(&mut cells)?;
        }
        Ok(cells)
    }
}

impl CellRun {
    /// Puts the new cells at the end of `cells`.
    fn push_fresh(&self, cells: &mut List<Cell>) -> Result<(), AllocError>
        ensures { OnOk result (map cell_of cells.new ≡ map cell_of cells.old ++ replicate self.now.count (fresh self.now.kind)) }
    {
        for _ in 0..self.count {
            cells.push(Cell::fresh(self.kind))?;
        }
        Ok(())
    }
}

impl FunShape {
    /// The number of values that a call hands over: one for each cell of a parameter.
    pub fn arity(&self) -> usize
        requires { spec.arity self.now.params < 2 ^ 64 }
        ensures { result ≡ spec.arity self.now.params }
    {
        let mut arity = 0;
        for kinds in self.params.as_slice() {
            arity += kinds.len();
        }
        arity
    }
}
