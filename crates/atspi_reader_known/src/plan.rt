//! A change of an application that is planned.

use crate::app::App;
use crate::refused::Refused;

/// What is to become of an application, so that what is wanted then can be told before.
#[derive(Clone, Copy)]
pub enum Plan<'a> {
    /// These parts are known, or refused, then.
    Settle(&'a Refused),
    /// This one stands in its place.
    Put(&'a App),
    /// It is forgotten.
    Forget,
}
