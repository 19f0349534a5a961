/// The kind of a cell: what it holds, and whether it is assigned once ("sync", Foster, Designing and Building Parallel
/// Programs, chapter 5).
#[derive(Clone, Copy, Debug, PartialEq, Eq)]
pub enum Kind {
    Int,
    SyncInt,
    Ptr,
    SyncPtr,
}
