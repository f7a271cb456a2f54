//! The editor of a board, its readers, and what it tells them.
ghost use Rattle.std.specs.Prelude.{◌≡◌, ◌⊎◌, ◌+◌, ◌<◌, ◌≤◌, ◌++◌, ◌∷◌, [], length, All, IfErr, IfNone, IfOk, IfSome, IsTrue, List, None, Ok, OnErr, OnOk, Some, false, is_some, option_map, true, vec_len};
ghost use Rattle.std.specs.Arc.{arc_value};
ghost use mathlib.Core.List.{IsPrefix};
ghost use Rattle.left_right.specs.Sides.{view as known};
ghost use Rattle.adr_refusal.specs.Answer.{OnlyNoMemory};
ghost use Rattle.adr_refusal.specs.Copy.{IsCopyOf};
ghost use Rattle.adr_refusal.specs.declared.refusal.Refusal.TheVariants.{NoRuntime, NoMemory, Full};
ghost use Rattle.adr_value.specs.declared.limits.TheConstants.{MOST_PUBLICATIONS};
ghost use Rattle.adr_model.specs.declared.entry.Tie.{Tie};
ghost use Rattle.adr_model.specs.Book.{empty};
ghost use Rattle.adr_model.specs.Edits.{after_from};
ghost use Rattle.adr_book.specs.Ledger.{Ledger};
ghost use Rattle.adr_desk.specs.Applied.{IsApplied};
ghost use Rattle.adr_board.specs.Published.{PublishedBook, last_batch};
ghost use Rattle.adr_board.specs.History.{HasLast, begun, ended, published_by, seen_by};
ghost use Rattle.adr_board.specs.Publications.{opening_book};
ghost use Rattle.adr_board.specs.Publishers.{opening_of};
ghost use Rattle.adr_board.specs.Boards.{Grows, desk_of, last_of, newcomer, with_published};
ghost use Rattle.adr_board.specs.Rules.{IsLast, IsLastBy, IsSight, IsTaken, MayFollow, showing};

use crate::publisher::Publisher;
use crate::rule::{Add, Look, Naming, RuledReader, RuledWriter};
use crate::shown::ShownPublication;
use crate::snapshot::Snapshot;
use crate::{Diary, Page};
use adr_book::Book;
use adr_desk::{Desk, Gate, Receipt};
use adr_model::{Published, Tie};
use adr_object::Edit;
use adr_value::Refusal;
use core::mem::replace_with;
use std::alloc::Global;
use std::marker::{Model, PhantomData};
use std::sync::{Arc, Wait};
use std::thread::Threads;

/// What the editor told. Contracts see the publications that there were.
#[derive(Drop)]
pub struct Told<J: Naming> {
    number: u64,
    attempt: u64,
    page: Page,
    of: PhantomData<J>,
}

impl<J: Naming> Model for Told<J> {
    ghost use Rattle.std.specs.Prelude.{◌≡◌, List};
    ghost use Rattle.adr_book.specs.Ledger.{Ledger};
    ghost use Rattle.adr_board.specs.History.{HasLast, published_by};

    ghost Value = { List Ledger };

    ghost view = { λ t. published_by t.page.log };

    ghost invariant = { λ t. (t.page.book ≡ J.history) × HasLast t.page.log t.number t.attempt };
}

impl<J: Naming> Told<J> {
    /// The number of the last publication that there was.
    pub fn number(&self) -> u64
        ensures { length self.now ≡ result + 1 }
    {
        self.number
    }

    /// A copy. It takes no memory.
    pub fn again(&self) -> Told<J>
        ensures { result ≡ self.now }
    {
        Told {
            number: self.number,
            attempt: self.attempt,
            page: self.page.again(),
            of: PhantomData,
        }
    }

    /// The longer of two, which the other begins.
    fn longer(&self, other: &Told<J>) -> Told<J>
        ensures one { (result ≡ self.now) ⊎ (result ≡ other.now) }
        ensures this { IsPrefix self.now result }
        ensures that { IsPrefix other.now result }
    {
        let mut both = self.page.again();
        both.learn(&other.page);
        if self.number < other.number {
            other.again()
        } else {
            self.again()
        }
    }

    // Whether the publications that a look shows begin with these. They always do where these were learnt before the
    // look, but only the look's number shows it.
    fn begins(&self, sight: &Sight) -> bool
        requires { (sight.now.page.book ≡ J.history) × IsSight (seen_by sight.now.page.log) sight.now.page.log sight.now.number sight.now.attempt }
        ensures { IsTrue result → IsPrefix self.now (seen_by sight.now.page.log) }
    {
        let mut both = self.page.again();
        both.learn(&sight.page);
        if self.number < sight.number {
            return true;
        }
        self.attempt == sight.attempt
    }
}

/// One of the readers. Contracts see the publications that it has seen, and those that it has learnt of.
///
/// It holds the snapshot that it saw last until it sees another, in a share of its own, so that readers which look at
/// one publication beside each other don't count its shares in one place.
#[derive(Drop)]
pub struct Reader<J: Naming> {
    alloc: Global,
    raw: RuledReader<J>,
    page: Page,
    told: Told<J>,
    own: Option<Arc<Snapshot>>,
}

impl<J: Naming> Model for Reader<J> {
    ghost use Rattle.adr_board.specs.Boards.{View};

    ghost Value = { View };

    ghost use Rattle.std.specs.Prelude.{◌≡◌, IfSome};
    ghost use Rattle.std.specs.Arc.{arc_value};
    ghost use mathlib.Core.List.{IsPrefix};
    ghost use Rattle.left_right.specs.Sides.{view as known};
    ghost use Rattle.adr_board.specs.History.{seen_by};
    ghost use Rattle.adr_board.specs.Rules.{IsLastBy};

    ghost view = { λ r. record { seen = seen_by r.page.log; learnt = r.told } };

    ghost invariant = { λ r. IsPrefix (seen_by r.page.log) (known r.raw.place) × IfSome r.own (λ s. IsLastBy J.tie (seen_by r.page.log) (arc_value s)) };
}

// What a look finds: the history of the last publication, its number and the place of its attempt, and a copy of it
// where it is not the one that the reader has.
#[derive(Drop)]
struct Sight {
    page: Page,
    number: u64,
    attempt: u64,
    fresh: Option<Result<Snapshot, Refusal>>,
}

// Enters, copies what is shown unless it has the number that the reader has, and leaves.
fn enter<J: Naming>(reader: RuledReader<J>, had: Option<u64>) -> (RuledReader<J>, Option<Sight>)
    ensures sight { IfSome result.1 (λ g. IsPrefix (known reader.place) (known result.0.place) × (seen_by g.page.log ≡ known result.0.place) × (g.page.book ≡ J.history) × IsSight (seen_by g.page.log) g.page.log g.number g.attempt) }
    ensures fresh { IfSome result.1 (λ g. IfSome g.fresh (λ copy. IfOk copy (IsLastBy J.tie (known result.0.place)) × OnlyNoMemory copy)) }
    ensures had { IfSome result.1 (λ g. g.fresh ≡ None → had ≡ Some g.number) }
    ensures none { IfNone result.1 (known result.0.place ≡ known reader.place) }
{
    match reader.enter_as::<Look<J>>() {
        Ok(reading) => {
            let shown = reading.get();
            let number = shown.snapshot.number();
            let sight = Sight {
                page: shown.page.again(),
                number,
                attempt: shown.attempt,
                fresh: copy_unless(&shown.snapshot, had == Some(number)),
            };
            (reading.leave(), Some(sight))
        }
        Err(reader) => (reader, None),
    }
}

// A copy of the snapshot, unless the reader has it.
fn copy_unless(snapshot: &Snapshot, is_had: bool) -> Option<Result<Snapshot, Refusal>>
    ensures copy { IfSome result (λ copy. IsCopyOf copy snapshot.now) }
    ensures had { result ≡ None → is_had ≡ true }
{
    if is_had { None } else { Some(snapshot.copy()) }
}

// As `enter`, of a reader that stays in its place.
fn glance<J: Naming>(reader: &mut RuledReader<J>, had: Option<u64>) -> Option<Sight>
    ensures sight { IfSome result (λ g. IsPrefix (known reader.old.place) (known reader.new.place) × (seen_by g.page.log ≡ known reader.new.place) × (g.page.book ≡ J.history) × IsSight (seen_by g.page.log) g.page.log g.number g.attempt) }
    ensures fresh { IfSome result (λ g. IfSome g.fresh (λ copy. IfOk copy (IsLastBy J.tie (known reader.new.place)) × OnlyNoMemory copy)) }
    ensures had { IfSome result (λ g. g.fresh ≡ None → had ≡ Some g.number) }
    ensures none { IfNone result (known reader.new.place ≡ known reader.old.place) }
{
    replace_with(reader, had, |reader, had| enter(reader, had))
}

// The number of the snapshot that a reader has.
fn number_of(own: &Option<Arc<Snapshot>>) -> Option<u64>
    ensures { result ≡ option_map (λ s. (arc_value {X = PublishedBook} s).number) own.now }
{
    match own {
        Some(own) => Some(own.number()),
        None => None,
    }
}

// The reader's own share of the publication that is last: that of the fresh copy, or else the one that it has.
fn renewed(
    alloc: Global,
    fresh: Option<Result<Snapshot, Refusal>>,
    own: Option<Arc<Snapshot>>,
) -> Result<Arc<Snapshot>, Refusal>
    requires has { fresh ≡ None → is_some own ≡ true }
    requires copy { IfSome fresh (λ copy. OnlyNoMemory copy) }
    ensures last { (tie : Tie) (published : List Ledger) → IsTaken tie published fresh own → IfOk result (λ s. IsLastBy tie published (arc_value s)) }
    ensures refusal { OnlyNoMemory result }
{
    match (fresh, own) {
        (Some(copy), _) => match Arc::new(alloc, copy?) {
            Ok(own) => Ok(own),
            Err(_) => Err(Refusal::NoMemory),
        },
        (None, Some(own)) => Ok(own),
        (None, None) => unreachable!(),
    }
}

// One more share of it.
fn shared(own: &Arc<Snapshot>) -> Result<Arc<Snapshot>, Refusal>
    ensures same { IfOk result (λ s. arc_value s ≡ arc_value own.now) }
    ensures refusal { OnlyNoMemory result }
{
    Arc::try_clone(own).map_err(|_| Refusal::NoMemory)
}

impl<J: Naming> Reader<J> {
    /// The last publication, under the board's rule for ties. It waits for nobody.
    ///
    /// Cost: one more share of the snapshot that the reader has, which takes no memory; at the first look at a
    /// publication a copy of its snapshot, which shares all.
    ///
    /// # Errors
    ///
    /// `NoMemory` where there is no room for a share of it; `NoRuntime` once the editor has closed the board.
    pub fn look(&mut self) -> Result<Arc<Snapshot>, Refusal>
        ensures last { IfOk result (λ s. IsLastBy J.tie self.new.seen (arc_value s)) }
        ensures grows { IfOk result (λ _. Grows self.old self.new) }
        ensures refused { IfErr result (λ e. ((e ≡ NoMemory) × Grows self.old self.new) ⊎ ((e ≡ NoRuntime) × (self.new ≡ self.old))) }
    {
        let Some(sight) = glance(&mut self.raw, number_of(&self.own)) else {
            return Err(Refusal::NoRuntime);
        };
        if !self.told.begins(&sight) {
            return Err(Refusal::NoRuntime);
        }
        let Sight {
            page,
            number: _,
            attempt: _,
            fresh,
        } = sight;
        self.page = page;
        let own = renewed(self.alloc, fresh, self.own.take())?;
        let share = shared(&own);
        self.own = Some(own);
        share
    }

    /// Takes in what the editor told. From now on a look shows no less. It takes no memory.
    pub fn learn(&mut self, told: &Told<J>)
        ensures seen { self.new.seen ≡ self.old.seen }
        ensures kept { IsPrefix self.old.learnt self.new.learnt }
        ensures learnt { IsPrefix told.now self.new.learnt }
        ensures one { (self.new.learnt ≡ self.old.learnt) ⊎ (self.new.learnt ≡ told.now) }
    {
        self.told = self.told.longer(told);
    }
}

// Shows readers this, whatever operation was left pending.
fn show<J: Naming, R: Wait>(
    writer: RuledWriter<J>,
    rt: &R,
    shown: ShownPublication,
) -> (RuledWriter<J>, Result<(), Refusal>)
    requires { MayFollow J.tie J.history (known writer.desk.place) (showing writer.desk.shown.value) (showing shown) }
    ensures ok { IfOk result.1 (λ _. (showing result.0.desk.shown.value ≡ showing shown) × (known result.0.desk.place ≡ known writer.desk.place ++ (showing shown).snapshot.book ∷ [])) }
    ensures err { IfErr result.1 (λ e. (e ≡ NoMemory) × (result.0.desk.shown.value ≡ writer.desk.shown.value) × (known result.0.desk.place ≡ known writer.desk.place)) }
{
    let mut writer = writer;
    let Ok(()) = writer.append(shown) else {
        return (writer, Err(Refusal::NoMemory));
    };
    match writer.publish_as::<Add, R>(rt) {
        (writer, Ok(())) => (writer, Ok(())),
        (writer, Err(_)) => (writer, Err(Refusal::NoMemory)),
    }
}

// As `show`, of a writer that stays in its place.
fn show_next<J: Naming, R: Wait>(
    writer: &mut RuledWriter<J>,
    rt: &R,
    shown: ShownPublication,
) -> Result<(), Refusal>
    requires { MayFollow J.tie J.history (known writer.old.desk.place) (showing writer.old.desk.shown.value) (showing shown) }
    ensures ok { IfOk result (λ _. (showing writer.new.desk.shown.value ≡ showing shown) × (known writer.new.desk.place ≡ known writer.old.desk.place ++ (showing shown).snapshot.book ∷ [])) }
    ensures err { IfErr result (λ e. (e ≡ NoMemory) × (writer.new.desk.shown.value ≡ writer.old.desk.shown.value) × (known writer.new.desk.place ≡ known writer.old.desk.place)) }
{
    replace_with(
        writer,
        (rt, shown),
        |writer, (rt, shown)| show(writer, rt, shown),
    )
}

// Shows readers this snapshot of the sealed book, as an attempt that the diary notes with how it ended.
fn attempt_to_show<J: Naming, R: Wait>(
    writer: &mut RuledWriter<J>,
    diary: &mut Diary,
    rt: &R,
    book: &Book,
    snapshot: Arc<Snapshot>,
) -> Result<(), Refusal>
    requires last { IsLast (known writer.old.desk.place) (showing writer.old.desk.shown.value).snapshot }
    requires next { (arc_value snapshot).number ≡ (showing writer.old.desk.shown.value).snapshot.number + 1 }
    requires leads { book.now.objects ≡ after_from (showing writer.old.desk.shown.value).snapshot.book.objects (last_batch book.now.closed) }
    requires publication { (arc_value snapshot).book ≡ book.now }
    requires tie { (arc_value snapshot).tie ≡ J.tie }
    requires history { diary.old.page.book ≡ J.history }
    requires says { published_by diary.old.page.log ≡ known writer.old.desk.place }
    ensures shown { OnOk result ((showing writer.new.desk.shown.value).snapshot ≡ arc_value snapshot) }
    ensures place { OnOk result (known writer.new.desk.place ≡ known writer.old.desk.place ++ book.now ∷ []) }
    ensures noted { OnOk result (diary.new.page.log ≡ diary.old.page.log ++ begun book.now ∷ ended true book.now ∷ []) }
    ensures unshown { OnErr result ((writer.new.desk.shown.value ≡ writer.old.desk.shown.value) × (known writer.new.desk.place ≡ known writer.old.desk.place)) }
    ensures undone { OnErr result ((diary.new.page.log ≡ diary.old.page.log) ⊎ (diary.new.page.log ≡ diary.old.page.log ++ begun book.now ∷ ended false book.now ∷ [])) }
    ensures history { diary.new.page.book ≡ diary.old.page.book }
    ensures refusal { OnlyNoMemory result }
{
    let Some(attempt) = diary.begin(book) else {
        return Err(Refusal::NoMemory);
    };
    let shown = ShownPublication::of(snapshot, diary.attempts, &attempt.page);
    let outcome = show_next(writer, rt, shown);
    diary.end(attempt, book, outcome.is_ok());
    outcome
}

/// The one writer. Contracts see its desk's rule for ties and book, and the publications.
///
/// It is not `Drop`: end it by `close`.
pub struct Editor<J: Naming> {
    publisher: Publisher,
    attempt: u64,
    writer: RuledWriter<J>,
    diary: Diary,
}

impl<J: Naming> Model for Editor<J> {
    ghost use Rattle.adr_board.specs.Boards.{Board};

    ghost Value = { Board };

    ghost use Rattle.left_right.specs.Sides.{view as known};
    ghost use Rattle.adr_board.specs.Publishers.{IsShownAs};
    ghost use Rattle.adr_board.specs.Rules.{showing};

    ghost view = { λ e. record { tie = e.publisher.tie; book = e.publisher.book; published = known e.writer.desk.place } };

    ghost invariant = { λ e. IsShownAs J.tie J.history e.publisher (showing e.writer.desk.shown.value).snapshot (known e.writer.desk.place) e.diary.page.book e.diary.page.log e.attempt };
}

impl<J: Naming> Editor<J> {
    /// Makes an edit, as the desk's `apply` does. Readers see it once it is published.
    ///
    /// # Errors
    ///
    /// Of the edit's faults the least, as the desk's `apply` names them; `NoMemory` in place of any. Then all is as it
    /// was.
    pub fn apply(&mut self, edit: Edit) -> Result<Receipt, Refusal>
        ensures applied { IsApplied edit (desk_of self.old) (desk_of self.new) result }
        ensures published { self.new.published ≡ self.old.published }
        ensures unchanged { OnErr result (self.new ≡ self.old) }
    {
        self.publisher.apply(edit)
    }

    /// Makes an edit as [`Editor::apply`] does, by several workers, 1 to 64, who share out the repair of timelines
    /// and pass the gate before each of its jobs, as the desk's `apply_with` does. The answer is the same for every number
    /// of workers.
    ///
    /// # Errors
    ///
    /// As of [`Editor::apply`].
    pub fn apply_with<R: Threads + Sync, G: Gate + Sync>(
        &mut self,
        rt: &R,
        workers: usize,
        gate: &G,
        edit: Edit,
    ) -> Result<Receipt, Refusal>
        ensures applied { IsApplied edit (desk_of self.old) (desk_of self.new) result }
        ensures published { self.new.published ≡ self.old.published }
        ensures unchanged { OnErr result (self.new ≡ self.old) }
    {
        self.publisher.apply_with(rt, workers, gate, edit)
    }

    /// The desk.
    pub fn desk(&self) -> &Desk
        ensures tie { result.now.tie ≡ self.now.tie }
        ensures book { result.now.book ≡ self.now.book }
    {
        self.publisher.desk()
    }

    /// The rule for ties of the board's name is that of its desk.
    pub fn editor_laws(&self)
        ensures tie { self.now.tie ≡ J.tie }
    {
        let _ = &self.publisher;
    }

    /// The last publication. It stores the desk's book as it was published, with its base and all its batches, whatever
    /// was condensed since.
    pub fn last(&self) -> &Arc<Snapshot>
        ensures last { IsLast self.now.published (arc_value result.now) }
        ensures book { (arc_value result.now).book ≡ last_of self.now.published }
        ensures tie { (arc_value result.now).tie ≡ self.now.tie }
    {
        self.publisher.last()
    }

    /// All publications so far, for readers to learn. It takes no memory.
    pub fn tell(&self) -> Told<J>
        ensures { result ≡ self.now.published }
    {
        Told {
            number: self.publisher.last().number(),
            attempt: self.attempt,
            page: self.diary.page.again(),
            of: PhantomData,
        }
    }

    /// Closes the open batch, and shows the desk to readers under the next number, also where nothing is new.
    ///
    /// It waits for readers that are just taking a share of the publication before the last. Cost: a copy of the book
    /// and its timelines, which shares all with the desk.
    ///
    /// # Errors
    ///
    /// `Full` after 1,000,000 publications, else `NoMemory`; both leave all as it was.
    pub fn publish<R: Wait>(&mut self, rt: &R) -> Result<Published, Refusal>
        ensures board { OnOk result (self.new ≡ with_published self.old) }
        ensures number { IfOk result (λ p. p.number ≡ length self.old.published) }
        ensures version { IfOk result (λ p. p.version ≡ self.old.book.objects.version) }
        ensures most { IfOk result (λ p. p.number ≤ MOST_PUBLICATIONS) }
        ensures refused { IfErr result (λ e. (e ≡ NoMemory) ⊎ ((e ≡ Full) × (length self.old.published ≡ MOST_PUBLICATIONS + 1))) }
        ensures unchanged { OnErr result (self.new ≡ self.old) }
    {
        let prepared = self.publisher.prepare()?;
        let snapshot = prepared.snapshot();
        let shown = shared(snapshot)?;
        let place = self.diary.attempts;
        attempt_to_show(
            &mut self.writer,
            &mut self.diary,
            rt,
            snapshot.book(),
            shown,
        )?;
        self.publisher.go_on_with(prepared);
        self.attempt = place;
        let last = self.publisher.last();
        Ok(Published {
            number: last.number(),
            version: last.version(),
        })
    }

    /// Counts the accepted edits from the last publication on, lets the closed batches go and answers that
    /// publication's version. Readers see nothing of it. Publications that stand share those batches, so their memory
    /// comes back as later ones take their place.
    ///
    /// # Errors
    ///
    /// `NoMemory` where there is no room; then all is as it was.
    pub fn condense(&mut self) -> Result<u64, Refusal>
        ensures version { IfOk result (λ version. version ≡ (last_of self.old.published).objects.version) }
        ensures base { OnOk result (self.new.book.base ≡ (last_of self.old.published).objects) }
        ensures closed { OnOk result (self.new.book.closed ≡ []) }
        ensures pending { self.new.book.pending ≡ self.old.book.pending }
        ensures objects { self.new.book.objects ≡ self.old.book.objects }
        ensures tie { self.new.tie ≡ self.old.tie }
        ensures published { self.new.published ≡ self.old.published }
        ensures unchanged { OnErr result (self.new ≡ self.old) }
        ensures refusal { OnlyNoMemory result }
    {
        self.publisher.condense()
    }

    /// Ends the board: a look then answers `NoRuntime`. It waits for readers that are taking a share.
    pub fn close<R: Wait>(self, rt: &R) {
        let Editor {
            publisher,
            attempt: _,
            writer,
            diary,
        } = self;
        drop(publisher);
        drop(diary);
        writer.take(rt);
    }
}

/// A board that has not been opened yet. Its history has no name.
#[derive(Drop)]
pub struct NewBoard {
    /// The history that the board begins, in which nothing is noted yet.
    pub diary: Diary,
    ghost empty: { diary.page.log ≡ [] },
}

impl NewBoard {
    /// A board to be opened.
    pub fn new() -> NewBoard {
        NewBoard {
            diary: Diary::new(),
        }
    }
}

// What a board starts with beside its publisher.
struct Started<J: Naming> {
    writer: RuledWriter<J>,
    attempt: u64,
    page: Page,
    diary: Diary,
}

// A board that shows publication 0.
fn start<J: Naming>(
    alloc: Global,
    board: NewBoard,
    first: &Arc<Snapshot>,
    readers: usize,
) -> Result<Started<J>, Refusal>
    requires history { board.diary.page.book ≡ J.history }
    requires first { arc_value first.now ≡ opening_of J.tie }
    requires readers { (0 < readers) × (readers ≤ 64) }
    ensures shown { IfOk result (λ t. (showing t.writer.desk.shown.value).snapshot ≡ opening_of J.tie) }
    ensures known { IfOk result (λ t. known t.writer.desk.place ≡ opening_book ∷ []) }
    ensures seen { IfOk result (λ t. seen_by t.page.log ≡ opening_book ∷ []) }
    ensures history { IfOk result (λ t. t.diary.page.book ≡ J.history) }
    ensures says { IfOk result (λ t. published_by t.diary.page.log ≡ opening_book ∷ []) }
    ensures last { IfOk result (λ t. HasLast t.diary.page.log 0 t.attempt) }
    ensures refusal { OnlyNoMemory result }
{
    let NewBoard { mut diary } = board;
    let shown = shared(first)?;
    let other = shared(first)?;
    let place = diary.attempts;
    let Some(attempt) = diary.begin(first.book()) else {
        return Err(Refusal::NoMemory);
    };
    let page = attempt.page.again();
    let one = ShownPublication::of(shown, place, &page);
    let two = ShownPublication::of(other, place, &page);
    let Ok(writer) = RuledWriter::<J>::new(alloc, one, two, readers) else {
        return Err(Refusal::NoMemory);
    };
    diary.end(attempt, first.book(), true);
    Ok(Started {
        writer,
        attempt: place,
        page,
        diary,
    })
}

fn seat_readers<J: Naming>(
    alloc: Global,
    writer: &RuledWriter<J>,
    told: &Told<J>,
    page: &Page,
    readers: usize,
) -> Result<Vec<Reader<J>>, Refusal>
    requires told { told.now ≡ opening_book ∷ [] }
    requires seen { seen_by page.now.log ≡ opening_book ∷ [] }
    ensures count { IfOk result (λ list. vec_len list ≡ readers) }
    ensures readers { IfOk result (λ list. All (λ r. r ≡ newcomer) list.items) }
    ensures refused { IfErr result (λ e. (e ≡ NoMemory) ⊎ (e ≡ NoRuntime)) }
{
    let mut list = Vec::new(alloc);
    for _reader in 0..readers {
        let Ok(raw) = writer.factory().reader() else {
            return Err(Refusal::NoRuntime);
        };
        let reader = Reader {
            alloc,
            raw,
            page: page.again(),
            told: told.again(),
            own: None,
        };
        if list.push(reader).is_err() {
            return Err(Refusal::NoMemory);
        }
    }
    Ok(list)
}

/// A board, by its editor and its readers.
pub struct Board;

impl Board {
    /// A board with publication 0 alone, which is the empty book, an empty desk, and so many readers, 1 to 64.
    ///
    /// # Errors
    ///
    /// `NoRuntime` where a reader's place is refused: then the board is ended again, which may wait, by the handle;
    /// else `NoMemory`.
    pub fn open<J: Naming, R: Wait>(
        rt: &R,
        alloc: Global,
        board: NewBoard,
        readers: usize,
        tie: Tie,
    ) -> Result<(Editor<J>, Vec<Reader<J>>), Refusal>
        requires history { board.diary.page.book ≡ J.history }
        requires tie { tie ≡ J.tie }
        requires readers { (0 < readers) × (readers ≤ 64) }
        ensures tie { IfOk result (λ b. b.0.tie ≡ tie) }
        ensures base { IfOk result (λ b. b.0.book.base ≡ empty) }
        ensures objects { IfOk result (λ b. b.0.book.objects ≡ empty) }
        ensures closed { IfOk result (λ b. b.0.book.closed ≡ []) }
        ensures pending { IfOk result (λ b. b.0.book.pending ≡ []) }
        ensures published { IfOk result (λ b. b.0.published ≡ opening_book ∷ []) }
        ensures count { IfOk result (λ b. vec_len b.1 ≡ readers) }
        ensures newcomers { IfOk result (λ b. All (λ r. r ≡ newcomer) b.1.items) }
        ensures refused { IfErr result (λ e. (e ≡ NoMemory) ⊎ (e ≡ NoRuntime)) }
    {
        Board::over(rt, alloc, board, Desk::new(alloc, tie)?, readers)
    }

    /// A board as [`Board::open`] makes it, over a desk that stays the editor's, whose book has no base and no closed
    /// batch. Publication 0 is the empty book here too.
    ///
    /// # Errors
    ///
    /// As of [`Board::open`].
    pub fn over<J: Naming, R: Wait>(
        rt: &R,
        alloc: Global,
        board: NewBoard,
        desk: Desk,
        readers: usize,
    ) -> Result<(Editor<J>, Vec<Reader<J>>), Refusal>
        requires history { board.diary.page.book ≡ J.history }
        requires tie { desk.tie ≡ J.tie }
        requires readers { (0 < readers) × (readers ≤ 64) }
        requires base { desk.book.base ≡ empty }
        requires closed { desk.book.closed ≡ [] }
        ensures tie { IfOk result (λ b. b.0.tie ≡ desk.tie) }
        ensures book { IfOk result (λ b. b.0.book ≡ desk.book) }
        ensures published { IfOk result (λ b. b.0.published ≡ opening_book ∷ []) }
        ensures count { IfOk result (λ b. vec_len b.1 ≡ readers) }
        ensures newcomers { IfOk result (λ b. All (λ r. r ≡ newcomer) b.1.items) }
        ensures refused { IfErr result (λ e. (e ≡ NoMemory) ⊎ (e ≡ NoRuntime)) }
    {
        let publisher = Publisher::over(alloc, desk)?;
        let Started {
            writer,
            attempt,
            page,
            diary,
        } = start(alloc, board, publisher.last(), readers)?;
        let editor = Editor {
            publisher,
            attempt,
            writer,
            diary,
        };
        match seat_readers(alloc, &editor.writer, &editor.tell(), &page, readers) {
            Ok(list) => Ok((editor, list)),
            Err(refusal) => {
                editor.close(rt);
                Err(refusal)
            }
        }
    }
}
