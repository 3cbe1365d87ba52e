//! Tests of what a reader keeps and speaks, through public calls alone. What is due was worked out by hand from the
//! rules of loads, of news and of speech. All items and news are of one application, which has number 7 and the bus
//! name `:1.7`.
#![tactic(auto)]

#[cfg(test)]
mod cached;
#[cfg(test)]
mod drawn;
#[cfg(test)]
mod many;
#[cfg(test)]
mod plain;
#[cfg(test)]
mod speech;
#[cfg(test)]
mod tables;
#[cfg(test)]
mod words;
