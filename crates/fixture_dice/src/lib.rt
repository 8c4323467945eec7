//! Numbers at random for tests, the same for the same seed. Start with [`Dice::new`].
#![tactic(auto)]

mod dice;

pub use dice::Dice;
