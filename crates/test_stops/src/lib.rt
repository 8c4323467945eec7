//! Tests of a store whose disks stop: at each call of each disk in turn, amid requests that are served over the store, and while
//! all its pages are audited anew. There is no call of its own.
#![tactic(auto)]

#[cfg(test)]
mod disks;
#[cfg(test)]
mod refreshes;
#[cfg(test)]
mod requests;
#[cfg(test)]
mod stops;
