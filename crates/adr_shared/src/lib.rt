#![tactic(auto)]
//! Values that several owners share, and maps and lists of them whose copies share their memory.

mod entry;
mod key;
mod lead;
mod list;
mod map;
mod shared;
mod tree;

pub use key::{MapKey, Sought};
pub use lead::{text_lead, text_lead_laws};
pub use list::SharedList;
pub use map::{SharedMap, look_up_laws};
pub use shared::Shared;
