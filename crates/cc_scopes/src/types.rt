ghost use Rattle.std.specs.Prelude.{◌≡◌};
ghost use Rattle.cc_scopes.specs.Types as spec;

use cc_names::ClassId;
use cc_ops::Kind;

/// What a pointer leads to.
#[derive(Clone, Copy, Debug)]
pub enum Target {
    /// A plain int.
    Int,
    /// A sync int.
    SyncInt,
    /// An object of a class.
    Class(ClassId),
}

/// The type of a value.
#[derive(Clone, Copy, Debug)]
pub enum Ty {
    /// An int.
    Int,
    /// `NULL`, which every pointer may hold.
    Null,
    /// No value.
    Void,
    /// A pointer.
    Pointer {
        /// What it leads to.
        to: Target,
        /// Whether it is a global one, which may lead to another processor.
        remote: bool,
    },
    /// Nothing is known of it, since its declaration breaks a rule. It breaks no further one.
    Unknown,
}

/// What a declared thing consists of.
#[derive(Clone, Copy, Debug)]
pub enum Shape {
    /// One cell.
    Cell,
    /// An array of so many cells.
    Array(u32),
    /// An object of a class.
    Object(ClassId),
}

/// What a variable or a field is declared as.
#[derive(Clone, Copy, Debug)]
pub struct Declared {
    /// What it consists of.
    pub shape: Shape,
    /// The type of its cells' values. That of an object says nothing.
    pub ty: Ty,
    /// Whether its cells are sync variables, which are assigned once.
    pub sync: bool,
}

impl Target {
    fn is(self, other: Target) -> bool
        ensures { result ≡ spec.same_target self other }
    {
        match (self, other) {
            (Target::Int, Target::Int) => true,
            (Target::SyncInt, Target::SyncInt) => true,
            (Target::Class(c), Target::Class(d)) => c.0 == d.0,
            _ => false,
        }
    }

    /// What a pointer to an int, plain or sync, leads to.
    pub fn int(sync: bool) -> Target
        ensures { result ≡ spec.int_target sync }
    {
        if sync { Target::SyncInt } else { Target::Int }
    }
}

impl Ty {
    /// Whether a place of this type takes a value of another.
    pub fn accepts(self, value: Ty) -> bool
        ensures { result ≡ spec.accepts self value }
    {
        match (self, value) {
            (Ty::Int, Ty::Int) => true,
            (Ty::Pointer { .. }, Ty::Null) => true,
            (
                Ty::Pointer { to, remote },
                Ty::Pointer {
                    to: other,
                    remote: crosses,
                },
            ) => to.is(other) && (remote || !crosses),
            (Ty::Unknown, _) => true,
            _ => false,
        }
    }

    /// Whether `==` may stand between values of these types.
    pub fn is_comparable(self, other: Ty) -> bool
        ensures { result ≡ spec.comparable self other }
    {
        match (self, other) {
            (Ty::Int, Ty::Int) => true,
            (Ty::Null, Ty::Null) => true,
            (Ty::Null, Ty::Pointer { .. }) => true,
            (Ty::Pointer { .. }, Ty::Null) => true,
            (Ty::Pointer { to, .. }, Ty::Pointer { to: other, .. }) => to.is(other),
            _ => false,
        }
    }

    /// Whether it is that of ints.
    pub fn is_int(self) -> bool
        ensures { result ≡ spec.is_int self }
    {
        match self {
            Ty::Int => true,
            _ => false,
        }
    }

    /// Whether it is that of a pointer that may not cross to another processor.
    pub fn is_local_pointer(self) -> bool
        ensures { result ≡ spec.is_local_pointer self }
    {
        match self {
            Ty::Pointer { remote, .. } => !remote,
            _ => false,
        }
    }

    /// The kind of a cell that holds its values.
    pub fn cell_kind(self, sync: bool) -> Kind
        ensures { result ≡ spec.cell_kind self sync }
    {
        match self {
            Ty::Pointer { .. } => pointer_kind(sync),
            _ => int_kind(sync),
        }
    }
}

/// The kind of an int cell.
fn int_kind(sync: bool) -> Kind
    ensures { result ≡ spec.int_kind sync }
{
    if sync { Kind::SyncInt } else { Kind::Int }
}

fn pointer_kind(sync: bool) -> Kind
    ensures { result ≡ spec.pointer_kind sync }
{
    if sync { Kind::SyncPtr } else { Kind::Ptr }
}
