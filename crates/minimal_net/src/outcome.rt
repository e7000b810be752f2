/// What a search says of a base relation at an edge: its label, without the scenario and the tree.
#[derive(Clone, Copy, Debug, PartialEq, Eq)]
pub enum Outcome {
    /// Some scenario of the network has it there.
    Held,
    /// None has.
    Refuted,
    /// The budget of splits was spent.
    Open,
}
