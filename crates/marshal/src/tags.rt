//! The first byte of a value.

/// Of what a function without a result gives.
pub(crate) const VOID: u8 = 0;
/// Of a number.
pub(crate) const INT: u8 = 1;
/// Of the pointer to no cell.
pub(crate) const NULL: u8 = 2;
/// Of an address.
pub(crate) const ADDRESS: u8 = 3;
