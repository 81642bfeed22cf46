// The answers that a stream of frames has when a hive is built from it. There is no function here: the definitions are in specs/, the theorems in proofs/.
#![tactic(auto)]

use fields::Refusal;

// "place: the frame's start in the stream": no offset, and no place in a file. It may pass 2^32, for shared data make an export longer than its hive.
#[derive(Clone, Copy)]
pub struct Spot(pub usize);

#[derive(Clone, Copy)]
pub struct Unbuilt {
    pub refusal: Refusal,
    pub at: Spot,
}
