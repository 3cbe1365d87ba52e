//! The laws of segments and of busy and quiet of the headline (`atspi_headline`), of the run of every lawful trace,
//! together with all laws of `atspi_headline_laws` and `atspi_headline_links`. Definitions with laws;
//! `docs/HEADLINE.md` says what is left.
#![tactic(auto)]

pub mod laws;
