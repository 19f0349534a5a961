use cc_core::Expression;

/// The header of a `parfor`.
#[derive(Drop)]
pub(crate) struct Header {
    /// The variable's number.
    pub(crate) variable: u32,
    /// What the variable starts with.
    pub(crate) start: Expression,
    /// The condition.
    pub(crate) test: Expression,
    /// The line of the last part.
    pub(crate) line: u32,
    /// What the last part gives the variable.
    pub(crate) value: Expression,
}
