ghost use Rattle.std.specs.Prelude.{◌≡◌};
ghost use Rattle.cc_scopes.specs.Scope.{context};
ghost use Rattle.cc_declared.specs.Allowed as spec;

use crate::role::Role;
use cc_names::ClassId;
use cc_scopes::{Declared, Scope, Shape, Target, Ty};

fn is_global(scope: &Scope<'_>, class: ClassId) -> bool
    ensures { result ≡ spec.is_global (context scope.now) class }
{
    match scope.class_at(class) {
        None => false,
        Some(class) => class.remote,
    }
}

impl Role {
    fn has_cells(self) -> bool
        ensures { result ≡ spec.has_cells self }
    {
        match self {
            Role::Variable => true,
            Role::Field => true,
            Role::Parameter => false,
            Role::Result => false,
        }
    }

    fn is_result(self) -> bool
        ensures { result ≡ spec.is_result self }
    {
        match self {
            Role::Result => true,
            _ => false,
        }
    }

    fn is_variable(self) -> bool
        ensures { result ≡ spec.is_variable self }
    {
        match self {
            Role::Variable => true,
            _ => false,
        }
    }

    fn may_be(self, scope: &Scope<'_>, ty: Ty, sync: bool) -> bool
        ensures { result ≡ spec.may_be self (context scope.now) ty sync }
    {
        match ty {
            Ty::Int => self.has_cells() || !sync,
            Ty::Pointer { to, remote } => {
                (self.has_cells() || !sync) && reaches(scope, to, remote)
            }
            Ty::Void => self.is_result(),
            Ty::Null => true,
            Ty::Unknown => true,
        }
    }

    /// Whether it may be of a type.
    pub(crate) fn allows(self, scope: &Scope<'_>, declared: Declared) -> bool
        ensures { result ≡ spec.is_allowed self (context scope.now) declared }
    {
        match declared.shape {
            Shape::Object(class) => self.is_variable() && !is_global(scope, class),
            _ => self.may_be(scope, declared.ty, declared.sync),
        }
    }
}

fn reaches(scope: &Scope<'_>, to: Target, remote: bool) -> bool
    ensures { result ≡ spec.reaches (context scope.now) to remote }
{
    match to {
        Target::Int => true,
        Target::SyncInt => true,
        Target::Class(class) => remote || !is_global(scope, class),
    }
}
