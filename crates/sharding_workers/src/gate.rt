// What a worker passes before it begins with a subchunk.

/// What each worker passes before it begins with a subchunk, for callers that watch or pace the workers. It changes no answer.
pub trait Gate {
    /// Called by the worker of a subchunk, by the subchunk's number, before it begins.
    fn pass(&self, number: u64);
}

/// A gate that lets every worker pass at once.
#[derive(Debug, Clone, Copy)]
pub struct NoGate;

impl Gate for NoGate {
    fn pass(&self, _number: u64) {}
}
