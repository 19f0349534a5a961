use cc_scopes::Call;
use ccpp_edge::List;

/// What a function does that matters to atomic functions.
#[derive(Drop)]
pub struct Conduct {
    /// Whether it is an atomic function.
    pub atomic: bool,
    /// The lines of what an atomic function may not do.
    pub blocks: List<u32>,
    /// Its calls on its own processor.
    pub calls: List<Call>,
}
