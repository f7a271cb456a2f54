//! The diary: a word that counts the entries of the history, and the history as far as it was seen.
ghost use Rattle.std.specs.Prelude.{◌≡◌, ◌+◌, ◌*◌, ◌<◌, [], ◌∷◌, ◌++◌, length, IfSome, ◌^◌};
ghost use Rattle.logbook.specs.Pages.{may_write, nib};
ghost use Rattle.adr_board.specs.History.{counter_of, begun, ended, IsCellAt};

use adr_book::Book;
use logbook::{Gain, Offer, Pen, Plain, Play, Rule, Seen, Start, Word};
use std::marker::Model;

/// A publication, as contracts see it: the book that was published. No value of it is made.
pub struct Publication;

impl Model for Publication {
    ghost use Rattle.adr_book.specs.Ledger.{Ledger};
    ghost use Rattle.adr_board.specs.Publications.{opening_book};

    ghost Value = { Ledger };

    ghost view = { λ _. opening_book };
}

/// An entry of the history. No value of it is made.
pub struct DiaryEntry {
    /// Whether readers were shown the publication. If not, an attempt begins, or one that was refused ends.
    pub shown: bool,
    /// The book that the attempt is to publish, where it begins as where it ends.
    pub publication: Publication,
}

/// The rule of the history: attempts, each followed by its end. Whoever began an attempt ends it.
pub struct Law;

impl Rule<DiaryEntry, u64> for Law {
    ghost use Rattle.std.specs.Prelude.{[]};
    ghost use base.Fml.{ftrue};
    ghost use Rattle.adr_board.specs.History.{IsKept};

    ghost holds = { λ cells log. IsKept cells log };

    ghost first = { [] };

    ghost hinted = { λ n log. Unit {0} };

    ghost shows = { λ log. [] };

    ghost keeps = { λ names log. ftrue };

    ghost moves = { λ ask before after answer. Unit {0} };
}

/// Callers trade nothing.
struct Nothing;

impl Gain<DiaryEntry, u64> for Nothing {
    ghost use base.Fml.{ftrue};

    ghost after = { λ names about answer. ftrue };
}

/// The step that begins an attempt.
struct Begin;

impl Play<DiaryEntry, u64> for Begin {
    ghost use Rattle.adr_board.specs.History.{Begins};

    ghost then = { Begins };
}

/// The step that ends one.
struct AttemptEnd;

impl Play<DiaryEntry, u64> for AttemptEnd {
    ghost use Rattle.adr_board.specs.History.{Ends};

    ghost then = { Ends };
}

/// The entry of an attempt.
impl Plain<Book, DiaryEntry, u64> for Begin {
    ghost use Rattle.std.specs.Prelude.{None};
    ghost use Rattle.adr_board.specs.History.{begun};

    ghost ask = { λ book. begun book };

    ghost state = { λ _. None };
}

/// How an attempt to publish the book ended.
#[derive(Drop)]
struct AttemptEnding<'a> {
    shown: bool,
    book: &'a Book,
}

impl Plain<AttemptEnding<'_>, DiaryEntry, u64> for AttemptEnd {
    ghost use Rattle.std.specs.Prelude.{None};
    ghost use Rattle.adr_board.specs.History.{ended};

    ghost ask = { λ e. ended e.shown e.book.now };

    ghost state = { λ _. None };
}

/// The history as far as it was seen. It has no bytes; of two such tokens of one history one begins the other.
pub type Page = Seen<DiaryEntry, u64, Law>;

/// An attempt that has begun.
#[derive(Drop)]
pub struct Attempt {
    /// The history up to the attempt.
    pub page: Page,
    pen: Pen,
    ghost room: { length page.log < 2 ^ 63 },
    ghost right: { (pen.book ≡ page.book) × (pen.nib ≡ nib may_write pen.nib.key 0) × IsCellAt pen.nib.key (length page.log) },
}

/// The history of a board, as its editor keeps it.
#[derive(Drop)]
pub struct Diary {
    counter: Word<DiaryEntry, u64, Law>,
    /// The whole history.
    pub page: Page,
    /// How many attempts have ended.
    pub attempts: u64,
    ghost counter_is: { counter ≡ counter_of page.book },
    ghost counted: { length page.log ≡ 2 * attempts },
}

const MOST_ATTEMPTS: u64 = 1 << 62;

impl Diary {
    /// The empty history.
    pub fn new() -> Diary
        ensures { result.page.log ≡ [] }
    {
        let (page, mut first, _second) = Seen::open(Start::alone(), 0, 0);
        Diary {
            counter: Word::tracked(0, &mut first),
            page,
            attempts: 0,
        }
    }

    /// Begins an attempt to publish the book. The diary is as it was until that ends, by `end`. None after 2^62
    /// attempts.
    pub fn begin(&self, book: &Book) -> Option<Attempt>
        ensures history { IfSome result (λ a. a.page.book ≡ self.now.page.book) }
        ensures log { IfSome result (λ a. a.page.log ≡ self.now.page.log ++ begun book.now ∷ []) }
    {
        if self.attempts >= MOST_ATTEMPTS {
            return None;
        }
        let count = 2 * self.attempts;
        let mut page = self.page.again();
        let mut offer: Offer<DiaryEntry, u64, Law, Nothing> = page.plain::<Nothing, Book, Begin>(
            book,
        );
        let mut pen = page.no_pen();
        let found = self
            .counter
            .compare_exchange::<Begin, Nothing>(count, count + 1, &mut page, &mut offer, &mut pen);
        if found != count {
            return None;
        }
        let _word: Word<DiaryEntry, u64, Law> = Word::tracked(0, &mut pen);
        Some(Attempt { page, pen })
    }

    /// Ends the attempt to publish the book: readers were shown it, or they weren't. It is never refused.
    pub fn end(&mut self, attempt: Attempt, book: &Book, shown: bool)
        requires history { attempt.page.book ≡ self.old.page.book }
        requires log { attempt.page.log ≡ self.old.page.log ++ begun book.now ∷ [] }
        ensures history { self.new.page.book ≡ self.old.page.book }
        ensures log { self.new.page.log ≡ self.old.page.log ++ begun book.now ∷ ended shown book.now ∷ [] }
    {
        let Attempt { mut page, mut pen } = attempt;
        let count = 2 * self.attempts + 1;
        let ending = AttemptEnding { shown, book };
        let mut offer: Offer<DiaryEntry, u64, Law, Nothing> = page.plain::<
            Nothing,
            AttemptEnding<'_>,
            AttemptEnd,
        >(&ending);
        self.counter
            .compare_exchange::<AttemptEnd, Nothing>(
                count,
                count + 1,
                &mut page,
                &mut offer,
                &mut pen,
            );
        self.page = page;
        self.attempts += 1;
    }
}
