/// Why no run explains an entry of a journal.
#[derive(Clone, Copy, Debug, PartialEq, Eq)]
pub enum Why {
    /// No such thread lives, or the bytes are not one whole message and so name none.
    NoThread,
    /// The bytes are not the thread's next request, or it is not served there.
    OtherRequest,
    /// The thread has to wait, or posts a request where the entry has none.
    NotEnabled,
    /// The thread's next move is a fault.
    Faults,
    /// The run does not end so.
    OtherEnd,
}
