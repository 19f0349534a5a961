/// What a worker passes before its turn. It has no meaning: only a test does something there. This project's own.
pub trait Gate: Sync {
    /// Called by the worker of a processor, with its number, before it takes its turn.
    fn enter(&self, processor: u32);
}

/// The gate that lets each worker through at once.
#[derive(Clone, Copy, Debug)]
pub struct OpenGate;

impl Gate for OpenGate {
    fn enter(&self, _processor: u32) {}
}
