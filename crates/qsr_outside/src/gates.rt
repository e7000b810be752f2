/// A place that threads pass as their work begins and ends. Passing has no meaning: a gate can only
/// delay.
pub trait Gate {
    /// Passes the point of this number.
    fn pass(&self, point: u32);
}

/// The gate that does nothing.
#[derive(Clone, Copy, Debug)]
pub struct NoGate;

impl Gate for NoGate {
    fn pass(&self, _point: u32) {}
}
