//! Tests of what no script says of the desk over connections and of runs of the program: a request over a socket, a door that is
//! to give no link, want of memory, what a program's arguments give, the line for each fault of a snapshot, a report by some of
//! the rules, and a run that is at work on two pages at once. There is no call of its own.
#![tactic(auto)]

#[cfg(test)]
mod doors;
#[cfg(test)]
mod lines;
#[cfg(test)]
mod memory;
#[cfg(test)]
mod pages;
#[cfg(test)]
mod runs;
#[cfg(test)]
mod served;
#[cfg(test)]
mod sockets;
#[cfg(test)]
mod starts;
