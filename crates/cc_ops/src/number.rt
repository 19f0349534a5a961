/// A thread: its processor's number, and its own there, both from 0 in the order made.
#[derive(Clone, Copy, Debug, PartialEq, Eq)]
pub struct ThreadNo {
    pub processor: u32,
    pub thread: u32,
}
