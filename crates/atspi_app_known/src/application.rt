//! What a world and a live end ask of the application that they hold.

mod application;
mod fault;

pub use application::Application;
pub use fault::AppFault;
