//! Strangers at each end, over a host in memory and through public calls alone: bytes that are no messages, links that
//! end inside one, sinks that fail, and drawn messages. What is due was worked out by hand.
#![tactic(auto)]

#[cfg(test)]
mod bus;
#[cfg(test)]
mod drawn;
#[cfg(test)]
mod ends;
#[cfg(test)]
mod faults;
#[cfg(test)]
mod hall;
#[cfg(test)]
mod links;
#[cfg(test)]
mod readers;
#[cfg(test)]
mod strangers;
#[cfg(test)]
mod writes;
