//! Ids.
ghost use Rattle.std.specs.Prelude.{◌≡◌, ◌↔◌, IsTrue, if◌then◌else◌};
ghost use Rattle.std.specs.List.{list_all};
ghost use Rattle.std.specs.Cmp.Lexicographic.{slice_cmp};
ghost use Rattle.std.specs.Ordering.{nat_cmp};
ghost use Rattle.adr_refusal.specs.Answer.{Answers};
ghost use Rattle.adr_refusal.specs.Copy.{IsCopyOf};
ghost use Rattle.adr_shared.specs.Lead.{lead_of_text};
ghost use Rattle.adr_object.specs.Id.{is_id_byte, is_id, id_named};

use adr_shared::{MapKey, Sought, text_lead, text_lead_laws};
use adr_value::{Refusal, Text, TryClone};
use std::alloc::Global;
use std::cmp::Ordering;
use std::marker::Model;
use std::str;

/// What an object is known by among those of its kind: 1 to 128 of `a-z A-Z 0-9 _ -` (OpenADR 3.0 Definition,
/// objectID). Its copies share one memory.
#[derive(Debug)]
pub struct Id {
    text: Text,
}

// A function of its own, so that callers that let a value go need not look into it.
impl Drop for Id {
    fn drop(self) {
        let Id { text } = self;
        drop(text);
    }
}

impl Model for Id {
    ghost use Rattle.std.specs.Prelude.{ℕ, List, IsTrue};
    ghost use Rattle.adr_object.specs.Id.{is_id};

    ghost Value = { List ℕ };

    ghost view = { λ id. id.text };

    ghost invariant = { λ id. IsTrue (is_id id.text) };
}

fn is_id_byte(byte: u8) -> bool
    ensures { result ≡ is_id_byte byte }
{
    matches!(byte, b'a'..=b'z' | b'A'..=b'Z' | b'0'..=b'9' | b'_' | b'-')
}

fn are_id_bytes(bytes: &[u8]) -> bool
    ensures { result ≡ list_all is_id_byte bytes.now }
{
    bytes.iter().all(|byte| is_id_byte(*byte))
}

/// Whether the bytes are those of an id.
fn are_of_id(bytes: &[u8]) -> bool
    ensures { result ≡ is_id bytes.now }
{
    let length = bytes.len();
    1 <= length && length <= 128 && are_id_bytes(bytes)
}

impl Id {
    /// Whether a text has the form of an id.
    pub fn fits(text: &str) -> bool
        ensures { result ≡ is_id text.now }
    {
        are_of_id(text.as_bytes())
    }

    /// The id that a word spells.
    ///
    /// # Errors
    ///
    /// `BadId` where it spells none, `NoMemory` where there is no room for it.
    pub fn read(alloc: Global, word: &[u8]) -> Result<Id, Refusal>
        ensures { Answers result (id_named word.now) }
    {
        IdText::read(word)?.to_id(alloc)
    }

    /// The id with these characters.
    ///
    /// # Errors
    ///
    /// `NoMemory` where there is no room for them.
    pub fn new(alloc: Global, text: &str) -> Result<Id, Refusal>
        requires { IsTrue (is_id text.now) }
        ensures { IsCopyOf result text.now }
    {
        Ok(Id {
            text: Text::new(alloc, text)?,
        })
    }

    /// The id's characters.
    pub fn text(&self) -> &str
        ensures value { result.now ≡ self.now }
        ensures form { IsTrue (is_id self.now) }
    {
        self.text.as_str()
    }

    /// The id's characters, to look it up by.
    pub fn lent(&self) -> IdText<'_>
        ensures { result ≡ self.now }
    {
        IdText {
            bytes: self.text().as_bytes(),
        }
    }

    /// Whether two ids are equal.
    pub fn same(&self, other: &Id) -> bool
        ensures { IsTrue result ↔ (self.now ≡ other.now) }
    {
        self.text() == other.text()
    }

    /// A copy that shares its characters, and takes no growth.
    ///
    /// # Errors
    ///
    /// `NoMemory`, only where the count of its owners is full.
    pub fn copy(&self) -> Result<Id, Refusal>
        ensures { IsCopyOf result self.now }
    {
        Ok(Id {
            text: self.text.copy()?,
        })
    }
}

impl TryClone for Id {
    fn try_clone(&self) -> Result<Id, Refusal> {
        self.copy()
    }
}

impl MapKey for Id {
    ghost code = { λ id. id };

    ghost lead_of = { lead_of_text };

    fn compare(&self, other: &Id) -> Ordering {
        self.text().cmp(other.text())
    }

    #[inline(always)]
    fn lead(&self) -> u64 {
        self.lent().lead()
    }

    #[inline(always)]
    fn compare_led(&self, lead: u64, other: &Id, other_lead: u64) -> Ordering {
        self.lent().compare_led(lead, other, other_lead)
    }
}

/// The characters of an id that owns none, to look an id up by.
#[derive(Drop)]
pub struct IdText<'a> {
    bytes: &'a [u8],
}

impl<'a> Model for IdText<'a> {
    ghost use Rattle.std.specs.Prelude.{ℕ, List, IsTrue};
    ghost use Rattle.adr_object.specs.Id.{is_id};

    ghost Value = { List ℕ };

    ghost view = { λ id. id.bytes.now };

    ghost invariant = { λ id. IsTrue (is_id id.bytes.now) };
}

impl<'a> IdText<'a> {
    /// The id that a word spells. It takes no memory.
    ///
    /// # Errors
    ///
    /// `BadId` where it spells none.
    pub fn read(word: &'a [u8]) -> Result<IdText<'a>, Refusal>
        ensures { result ≡ id_named word.now }
    {
        if !are_of_id(word) {
            return Err(Refusal::BadId);
        }
        Ok(IdText { bytes: word })
    }

    /// The id with these characters.
    ///
    /// # Errors
    ///
    /// `NoMemory` where there is no room for them.
    pub fn to_id(self, alloc: Global) -> Result<Id, Refusal>
        ensures { IsCopyOf result self.entry }
    {
        match str::from_utf8(self.bytes) {
            Ok(text) => Id::new(alloc, text),
            Err(_) => unreachable!(),
        }
    }

    // Out of line, so that a look-up has only the comparison of leads in its loop.
    #[inline(never)]
    fn compare(&self, id: &Id) -> Ordering
        ensures { result ≡ slice_cmp nat_cmp self.now id.now }
    {
        self.bytes.cmp(id.text().as_bytes())
    }
}

impl Sought<Id> for IdText<'_> {
    ghost code = { λ id. id };

    ghost lead_of = { lead_of_text };

    #[inline(always)]
    fn lead(&self) -> u64 {
        text_lead(self.bytes)
    }

    #[inline(always)]
    fn compare_led(&self, lead: u64, other: &Id, other_lead: u64) -> Ordering {
        text_lead_laws();
        let _ = &self.bytes;
        let _ = &other.text;
        if lead == other_lead {
            self.compare(other)
        } else if lead < other_lead {
            Ordering::Less
        } else {
            Ordering::Greater
        }
    }
}
