ghost use Rattle.std.specs.Prelude.{◌≡◌, IfOk};
ghost use Rattle.cc_functions.specs.Items as spec;

use crate::functions::Elaborated;
use cc_blocking::Conduct;
use cc_core::Function;
use cc_ops::ClassShape;
use ccpp_edge::List;
use std::alloc::{AllocError, Global};

/// What is done of a program so far.
#[derive(Drop)]
pub struct Done {
    /// The core of its functions, by their numbers.
    pub functions: List<Function>,
    /// What each does that an atomic function may not.
    pub conducts: List<Conduct>,
    /// The core of its classes, by their numbers.
    pub classes: List<ClassShape>,
}

impl Done {
    /// Nothing is done yet.
    pub(crate) fn nothing(alloc: Global) -> Done
        ensures { result ≡ spec.nothing_done }
    {
        Done {
            functions: List::new(alloc),
            conducts: List::new(alloc),
            classes: List::new(alloc),
        }
    }

    /// With one more function.
    pub(crate) fn with_function(self, elaborated: Elaborated) -> Result<Done, AllocError>
        ensures { IfOk result (λ more. more ≡ spec.with_function self elaborated) }
    {
        let Done {
            mut functions,
            mut conducts,
            classes,
        } = self;
        let Elaborated { function, conduct } = elaborated;
        functions.push(function)?;
        conducts.push(conduct)?;
        Ok(Done {
            functions,
            conducts,
            classes,
        })
    }

    /// With one more class.
    pub(crate) fn with_class(self, class: ClassShape) -> Result<Done, AllocError>
        ensures { IfOk result (λ more. more ≡ spec.with_class self class) }
    {
        let Done {
            functions,
            conducts,
            mut classes,
        } = self;
        classes.push(class)?;
        Ok(Done {
            functions,
            conducts,
            classes,
        })
    }
}
