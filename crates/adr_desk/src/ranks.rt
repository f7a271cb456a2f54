//! The ranks of the winners that timelines show, from the events of the book.
ghost use Rattle.std.specs.Prelude.{◌≡◌};
ghost use Rattle.std.specs.Option.{option_copied};
ghost use Rattle.adr_model.specs.Rank.{priority_of as priority_number};
ghost use Rattle.adr_desk.specs.Ranks.{if_newest, priority_in};

use adr_book::Book;
use adr_model::{Rank, Tie, Winner};
use adr_timeline::Ranks;

fn priority_of(priority: Option<u32>) -> u64
    ensures { result ≡ priority_number priority }
{
    match priority {
        Some(priority) => u64::from(priority),
        None => 1 << 32,
    }
}

/// The priority of the event that the edit of that number wrote. A look-up, not a scan.
fn priority_by(book: &Book, written: u64) -> u64
    ensures { result ≡ priority_in book.now.objects.events written }
{
    match book.event_by(written) {
        Some(event) => priority_of(event.priority),
        None => 1 << 32,
    }
}

/// The ranks under the rule of the newest write, which tells an interval's rank by its event alone. Under that of the
/// latest start a rank has the start of the interval, which takes the layout of the event.
#[derive(Clone, Copy)]
pub(crate) struct NewestRanks<'a> {
    book: &'a Book,
}

impl<'a> NewestRanks<'a> {
    pub(crate) fn of(book: &'a Book) -> NewestRanks<'a>
        ensures { result.book.now ≡ book.now }
    {
        NewestRanks { book }
    }

    /// The ranks, where the rule is that of the newest write.
    pub(crate) fn under(&self, tie: Tie) -> Option<&NewestRanks<'a>>
        ensures { option_copied result ≡ if_newest tie self.now }
    {
        match tie {
            Tie::Newest => Some(self),
            Tie::LatestStart => None,
        }
    }
}

impl Ranks for NewestRanks<'_> {
    ghost use Rattle.std.proofs.Common.{refl};
    ghost use Rattle.adr_desk.specs.Ranks.{newest_rank};

    ghost rank = { λ ranks winner. newest_rank ranks.book.now.objects.events winner };

    fn rank(&self, winner: Winner) -> Rank {
        Rank {
            priority: priority_by(self.book, winner.written),
            late: 0,
            written: winner.written,
            place: winner.place,
        }
    }

    ghost names = { λ ranks winner. refl };
}
