//! Tests of stores and keepers in memory: a store's texts, each run at least once, and a keeper that passes its calls on. There is
//! no call of its own.
#![tactic(auto)]

#[cfg(test)]
mod keepers;
#[cfg(test)]
mod tables;
