/// An interval of whole numbers.
#[derive(Clone, Copy, Debug, PartialEq, Eq)]
pub struct Interval {
    /// Where it begins.
    pub lo: u32,
    /// Where it ends, which is above `lo` in all that `realise` gives.
    pub hi: u32,
}
