//! Whether two values are the same by all that their look-ups tell, which takes no memory: for what is made again after
//! it was refused from outside.
mod books;
mod objects;
mod timelines;

pub use books::{same_book, same_by_id, same_journal, same_store};
pub use objects::{Same, edited_id, same_option};
pub use timelines::same_timeline;
