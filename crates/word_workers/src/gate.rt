/// Where each worker passes once, after its first clock reading and before it draws a piece.
pub trait Gate: Sync {
    fn arrive(&self, worker: u64);
}

/// A gate that holds nobody.
pub struct NoGate;

impl Gate for NoGate {
    fn arrive(&self, _worker: u64) {}
}
