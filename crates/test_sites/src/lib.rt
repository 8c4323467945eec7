//! Tests of what keepers answer of the sites that they keep, also before a store is prepared, of what a request reads, and of what
//! is kept after requests at random. There is no call of its own.
#![tactic(auto)]

#[cfg(test)]
mod asked;
#[cfg(test)]
mod doubtful;
#[cfg(test)]
mod fits;
#[cfg(test)]
mod keeping;
#[cfg(test)]
mod random;
#[cfg(test)]
mod reads;
#[cfg(test)]
mod soundness;
#[cfg(test)]
mod unprepared;
