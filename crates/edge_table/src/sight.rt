use narrow_core::Actor;

/// What a pass is and what it has done, as its seat has it: the actor, and how often it has loaded a word and has made
/// a `fetch_and`. No value of it is ever made: proofs read it, as the view of the seat.
pub struct Sight {
    pub actor: Actor,
    pub loads: u64,
    pub fetch_ands: u64,
}
