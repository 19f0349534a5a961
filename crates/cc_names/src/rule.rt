ghost use Rattle.std.specs.Prelude.{◌≡◌};
ghost use Rattle.cc_names.specs.Rules as spec;

/// A static rule, in the order of the table of static rules. This project's own.
#[derive(Clone, Copy, Debug, PartialEq, Eq)]
pub enum StaticRule {
    /// There is no function `main`.
    NoMain,
    /// A second constant, class or function of the file has a name, or a second member of a class, or there is a second
    /// constructor.
    NameTwice,
    /// `main` does not return `int`, or a parameter of it is no plain `int`.
    BadMain,
    /// A second declaration in one scope has a name.
    LocalTwice,
    /// A type's name is no class.
    UnknownClass,
    /// A name is no variable, own member, constant or function.
    UnknownName,
    /// A class has no member of that name.
    UnknownMember,
    /// A declared type is not allowed.
    BadDeclared,
    /// A length or a constant is not made of literals and earlier constants alone, or its value is a fault.
    BadConst,
    /// A value is not of the wanted type.
    BadType,
    /// What is assigned, or has its address taken, is no variable, element, member or pointer's target.
    NotPlace,
    /// The number of arguments differs from that of the parameters.
    ArgCount,
    /// What is called is no function, or a function's name stands without a call.
    NotFunction,
    /// The address of a member is taken, or a member array stands as a pointer.
    MemberAddress,
    /// A local pointer would be read, written or passed through a global pointer.
    RemoteLocal,
    /// `this` stands outside a member function.
    ThisOutside,
    /// `main` is called or spawned.
    MainCalled,
    /// `return` stands within a `par` or a `parfor`.
    ReturnInBranch,
    /// A `void` function returns a value, or another one returns none.
    ReturnValue,
    /// The last part of a `parfor` header does not assign the header's variable.
    ParforHeader,
    /// A constructor has another name than its class, or does more than to assign the object's own members.
    Constructor,
    /// An atomic function may wait, or do what might wait.
    AtomicBody,
    /// `break` or `continue` is in no loop of its function, or a `par` or `parfor` stands between it and the nearest one.
    LoopOutside,
}

/// A static rule that sets a limit to a number.
#[derive(Clone, Copy, Debug, PartialEq, Eq)]
pub enum StaticLimit {
    /// The classes of a program: at most 256.
    Classes,
    /// The functions of a program, members included: at most 1,024.
    Functions,
    /// The members of a class: at most 256.
    Members,
    /// The parameters of a function or a constructor: at most 8.
    Parameters,
    /// The length of an array: 1 to 65,536.
    ArrayLength,
}

impl StaticRule {
    /// The rule's name, as reports print it.
    pub fn name(self) -> &'static str
        ensures { result.now ≡ spec.rule_name self }
    {
        match self {
            StaticRule::NoMain => "NoMain",
            StaticRule::NameTwice => "NameTwice",
            StaticRule::BadMain => "BadMain",
            StaticRule::LocalTwice => "LocalTwice",
            StaticRule::UnknownClass => "UnknownClass",
            StaticRule::UnknownName => "UnknownName",
            StaticRule::UnknownMember => "UnknownMember",
            StaticRule::BadDeclared => "BadDeclared",
            StaticRule::BadConst => "BadConst",
            StaticRule::BadType => "BadType",
            StaticRule::NotPlace => "NotPlace",
            StaticRule::ArgCount => "ArgCount",
            StaticRule::NotFunction => "NotFunction",
            StaticRule::MemberAddress => "MemberAddress",
            StaticRule::RemoteLocal => "RemoteLocal",
            StaticRule::ThisOutside => "ThisOutside",
            StaticRule::MainCalled => "MainCalled",
            StaticRule::ReturnInBranch => "ReturnInBranch",
            StaticRule::ReturnValue => "ReturnValue",
            StaticRule::ParforHeader => "ParforHeader",
            StaticRule::Constructor => "Constructor",
            StaticRule::AtomicBody => "AtomicBody",
            StaticRule::LoopOutside => "LoopOutside",
        }
    }

    /// Its number in the order of the table, in which limits have theirs.
    pub fn number(self) -> u8
        ensures { result ≡ spec.rule_number self }
    {
        match self {
            StaticRule::NoMain => 1,
            StaticRule::NameTwice => 2,
            StaticRule::BadMain => 7,
            StaticRule::LocalTwice => 8,
            StaticRule::UnknownClass => 9,
            StaticRule::UnknownName => 10,
            StaticRule::UnknownMember => 11,
            StaticRule::BadDeclared => 12,
            StaticRule::BadConst => 13,
            StaticRule::BadType => 15,
            StaticRule::NotPlace => 16,
            StaticRule::ArgCount => 17,
            StaticRule::NotFunction => 18,
            StaticRule::MemberAddress => 19,
            StaticRule::RemoteLocal => 20,
            StaticRule::ThisOutside => 21,
            StaticRule::MainCalled => 22,
            StaticRule::ReturnInBranch => 23,
            StaticRule::ReturnValue => 24,
            StaticRule::ParforHeader => 25,
            StaticRule::Constructor => 26,
            StaticRule::AtomicBody => 27,
            StaticRule::LoopOutside => 28,
        }
    }
}

impl StaticLimit {
    /// The limit's name, as reports print it.
    pub fn name(self) -> &'static str
        ensures { result.now ≡ spec.limit_name self }
    {
        match self {
            StaticLimit::Classes => "Classes",
            StaticLimit::Functions => "Functions",
            StaticLimit::Members => "Members",
            StaticLimit::Parameters => "Parameters",
            StaticLimit::ArrayLength => "ArrayLength",
        }
    }

    /// Its number in the order of the table.
    pub fn number(self) -> u8
        ensures { result ≡ spec.limit_number self }
    {
        match self {
            StaticLimit::Classes => 3,
            StaticLimit::Functions => 4,
            StaticLimit::Members => 5,
            StaticLimit::Parameters => 6,
            StaticLimit::ArrayLength => 14,
        }
    }
}
