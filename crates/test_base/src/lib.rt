//! Tests of what stands below pages and the desk: rows by name, frames of replies, words of the command line, counts, links and
//! doors, in memory and over sockets, and what bytes of a connection say. There is no call of its own.
#![tactic(auto)]

#[cfg(test)]
mod counting;
#[cfg(test)]
mod frames;
#[cfg(test)]
mod memory;
#[cfg(test)]
mod reading;
#[cfg(test)]
mod rows;
#[cfg(test)]
mod sockets;
#[cfg(test)]
mod words;
