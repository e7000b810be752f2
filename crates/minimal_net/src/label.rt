use scenario::Scenario;
use split_trees::Tree;

/// What is known of a base relation at an edge of a network.
#[derive(Debug, Drop)]
pub enum Label {
    /// This scenario of the network has it there.
    Held(Scenario),
    /// No scenario has, as the tree shows.
    Refuted(Tree),
    /// The budget of splits was spent.
    Budget(Tree),
}
