#![tactic(auto)]
//! An editor that hands out its publications as shares, and waits for nobody: what a caller embeds that has threads and
//! an exchange of its own.

mod editing;
mod governor;
mod instants;
mod laws;
mod reading;
mod script;
mod steps;

pub use adr_board::Publisher;
pub use editing::Editing;
pub use governor::{Governor, GovernorSource};
pub use instants::seconds_of;
pub use laws::{crossing_laws, governor_laws, publication_laws, script_laws};
pub use reading::Reading;
