ghost use Rattle.std.specs.Prelude.{◌≡◌, ℕ, [], map, IfOk};
ghost use Rattle.cc_code.specs.Code as spec;
ghost use Rattle.cc_code.specs.Code.{act, frame, branches_at};
ghost use Rattle.stack_code.specs.View.{instr_of};
ghost use Rattle.code_thread.specs.Moves.{after};
ghost use Rattle.code_thread.specs.View.{operands_of, answer_of};

use crate::frame::Frame;
use crate::running::Running;
use crate::thread::Thread;
use cc_ops::value_at;
use ccpp_edge::List;
use global_ptr::Value;
use stack_code::Instr;
use std::alloc::{AllocError, Global};

impl Running {
    /// The branches that an instruction forks, where the variable of a branch is at the address that was made.
    pub fn branches_at(
        &self,
        alloc: Global,
        instr: &Instr,
        found: &[Value],
    ) -> Result<Vec<Thread>, AllocError>
        ensures { (code : spec.Code) (line first count : ℕ)
            → let m = act code self.now.frame self.now.callers (operands_of self.now) line (instr_of instr.now) in
            IfOk result (λ branches. branches.items ≡ (after m (answer_of found.now first count)).branches) }
    {
        match instr {
            Instr::Fork(targets) => self.branches(alloc, targets.as_slice()),
            Instr::Each { target, var } => {
                let mut branch = self.branch(alloc, *target)?;
                branch.set_variable(*var, value_at(found, 0));
                let mut branches = Vec::new(alloc);
                branches.push(Thread::branch(alloc, branch))?;
                Ok(branches)
            }
            _ => Ok(Vec::new(alloc)),
        }
    }

    /// A branch at each target.
    fn branches(&self, alloc: Global, targets: &[u32]) -> Result<Vec<Thread>, AllocError>
        ensures { IfOk result (λ branches. branches.items ≡ branches_at self.now.frame.this self.now.frame.vars targets.now) }
    {
        let mut branches = Vec::new(alloc);
        for target in targets {
            let branch = self.branch(alloc, *target)?;
            branches.push(Thread::branch(alloc, branch))?;
        }
        Ok(branches)
    }

    /// The frame of a branch that begins at a place.
    fn branch(&self, alloc: Global, place: u32) -> Result<Frame, AllocError>
        ensures { IfOk result (λ branch. branch ≡ frame self.now.frame.this self.now.frame.vars [] place) }
    {
        let vars = List::from_slice(alloc, self.frame.variables())?;
        Ok(Frame::new(alloc, self.frame.this(), vars, place))
    }
}
