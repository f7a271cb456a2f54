//! Texts that share their memory with their copies.
ghost use Rattle.std.specs.Prelude.{◌≡◌, IsTrue, length};
ghost use Rattle.std.specs.Str.{chars};
ghost use Rattle.adr_refusal.specs.Copy.{IsCopyOf};
ghost use Rattle.adr_value.specs.Names.{is_name};

use adr_refusal::{Refusal, TryClone};
use std::alloc::Global;
use std::marker::Model;
use std::sync::ArcStr;

/// A text of any length, which contracts see as its UTF-8 bytes. Its copies share one memory.
#[derive(Debug)]
pub struct Text {
    text: ArcStr,
}

// A function of its own, so that callers that let a value go need not look into it.
impl Drop for Text {
    fn drop(self) {
        let Text { text } = self;
        drop(text);
    }
}

impl Model for Text {
    ghost use Rattle.std.specs.Prelude.{ℕ, List};
    ghost use Rattle.std.specs.Arc.{arc_str_bytes};

    ghost Value = { List ℕ };

    ghost view = { λ t. arc_str_bytes t.text };
}

impl Text {
    /// The text with these characters.
    ///
    /// # Errors
    ///
    /// `NoMemory` where there is no room for them.
    pub fn new(alloc: Global, text: &str) -> Result<Text, Refusal>
        ensures { IsCopyOf result text.now }
    {
        Ok(Text {
            text: ArcStr::from_str(alloc, text)?,
        })
    }

    /// The characters.
    pub fn as_str(&self) -> &str
        ensures { result.now ≡ self.now }
    {
        self.text.as_str()
    }

    /// A copy that shares this text's memory, and takes no growth.
    ///
    /// # Errors
    ///
    /// `NoMemory` only where the count of its sharers is full.
    pub fn copy(&self) -> Result<Text, Refusal>
        ensures { IsCopyOf result self.now }
    {
        Ok(Text {
            text: self.text.clone()?,
        })
    }
}

impl TryClone for Text {
    fn try_clone(&self) -> Result<Text, Refusal> {
        self.copy()
    }
}

// How many Unicode scalar values a text has.
fn char_count(text: &str) -> usize
    ensures { result ≡ length (chars text.now) }
{
    text.chars().count()
}

/// A text of 1 to 128 characters (Unicode scalar values). Its copies share one memory.
#[derive(Debug)]
pub struct Name {
    text: Text,
}

// A function of its own, so that callers that let a value go need not look into it.
impl Drop for Name {
    fn drop(self) {
        let Name { text } = self;
        drop(text);
    }
}

impl Model for Name {
    ghost use Rattle.std.specs.Prelude.{ℕ, List, IsTrue};
    ghost use Rattle.adr_value.specs.Names.{is_name};

    ghost Value = { List ℕ };

    ghost view = { λ n. n.text };

    ghost invariant = { λ n. IsTrue (is_name n.text) };
}

impl Name {
    /// Whether a text has 1 to 128 characters, as `new` requires. They are counted in one of more bytes alone.
    pub fn fits(text: &str) -> bool
        ensures { result ≡ is_name text.now }
    {
        if text.len() <= 128 {
            return !text.is_empty();
        }
        char_count(text) <= 128
    }

    /// The name with these characters.
    ///
    /// # Errors
    ///
    /// `NoMemory` where there is no room for them.
    pub fn new(alloc: Global, text: &str) -> Result<Name, Refusal>
        requires { IsTrue (is_name text.now) }
        ensures { IsCopyOf result text.now }
    {
        Ok(Name {
            text: Text::new(alloc, text)?,
        })
    }

    /// The characters.
    pub fn as_str(&self) -> &str
        ensures value { result.now ≡ self.now }
        ensures limit { IsTrue (is_name self.now) }
    {
        self.text.as_str()
    }

    /// A copy that shares this name's memory, and takes no growth.
    ///
    /// # Errors
    ///
    /// `NoMemory` only where the count of its sharers is full.
    pub fn copy(&self) -> Result<Name, Refusal>
        ensures { IsCopyOf result self.now }
    {
        Ok(Name {
            text: self.text.copy()?,
        })
    }
}

impl TryClone for Name {
    fn try_clone(&self) -> Result<Name, Refusal> {
        self.copy()
    }
}
