//! Steps of blocks under labels, as they stand one after the other in a program's list of steps.

use m5_cps::step::{Ending, Straight, Test};
use m5_terms::listed::Listed;

/// A step of a block. The code after a straight form stands right behind it.
#[derive(Drop)]
pub enum Step {
    Straight(Straight),
    /// The next slot is a closure of a label's block, which takes the values of some slots; the code
    /// goes on at a place.
    Closure {
        taken: Listed<u32>,
        label: usize,
        next: usize,
    },
    /// Where the test holds, the code goes on right behind it, else at a place.
    Test {
        test: Test,
        slot: u32,
        second: usize,
    },
    Ends(Ending),
}
