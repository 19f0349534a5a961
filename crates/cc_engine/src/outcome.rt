use ccpp_edge::Bytes;
use global_ptr::Standing;

/// What a run wrote, and how it ended.
#[derive(Drop)]
pub struct Outcome {
    /// All that was printed.
    pub output: Bytes,
    /// How the run stands at its end.
    pub ended: Standing,
}
