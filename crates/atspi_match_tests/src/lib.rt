//! Tests of match rules, through public calls alone: their texts, what they match, and the index over them.
#![tactic(auto)]

#[cfg(test)]
mod drawn;
#[cfg(test)]
mod made;
#[cfg(test)]
mod many;
#[cfg(test)]
mod rule_texts;
#[cfg(test)]
mod rules;
#[cfg(test)]
mod spelled;
