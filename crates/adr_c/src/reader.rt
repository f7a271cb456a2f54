//! What C holds of a reader.
ghost use Rattle.std.specs.Prelude.{◌≡◌, Option, None, Some, is_some, true, IfSome, IfNone};
ghost use Rattle.std.specs.Coded.{coded_option};
ghost use Rattle.adr_embed.specs.Held.{Seen};
ghost use Rattle.adr_embed.specs.contracts.reading.Reading.{the_row as reading_row};
ghost use Rattle.adr_c.specs.Owned.{owned};

use crate::loose::Loose;
use adr_embed::Reading;
use std::alloc::Global;
use std::marker::Model;
use std::{mem, ptr};

/// A box of a reader as its pointer, or nothing.
#[repr(C)]
pub struct ReaderBox {
    at: *mut u8,
    ghost held: { Option Seen } by { coded_option reading_row.coded },
}

impl Model for ReaderBox {
    ghost also_owns = { λ i. owned reading_row i.at i.held };
}

impl ReaderBox {
    /// Keeps the pointer of a box.
    fn of(loose: Loose<Reading, Global>) -> ReaderBox
        ensures { result.held ≡ Some loose.value }
    {
        let Loose { at, alloc: _ } = loose;
        ReaderBox { at: at.cast() }
    }

    /// Keeps nothing.
    fn none() -> ReaderBox
        ensures { result.held ≡ None }
    {
        ReaderBox {
            at: ptr::null_mut(),
        }
    }

    /// Lets go of nothing.
    fn end(self)
        requires { self.held ≡ None }
    {
        let ReaderBox { at: _ } = self;
    }

    /// The box that the pointer is of.
    fn into_loose(self, alloc: Global) -> Loose<Reading, Global>
        requires { is_some self.held ≡ true }
        ensures { self.held ≡ Some result.value }
    {
        let ReaderBox { at } = self;
        Loose {
            at: at.cast(),
            alloc,
        }
    }
}

/// A reader in C's hands. One of zeros is closed.
#[repr(C)]
pub struct ReaderHandle {
    is_open: bool,
    inner: ReaderBox,
    ghost agrees: { is_open ≡ is_some inner.held },
}

impl ReaderHandle {
    /// What it holds, if it is open. It is closed from then on.
    pub(crate) fn take(&mut self, alloc: Global) -> Option<Box<Reading, Global>>
        ensures some { IfSome result (λ b. self.old.inner.held ≡ Some b.value) }
        ensures none { IfNone result (self.old.inner.held ≡ None) }
        ensures closed { self.new.inner.held ≡ None }
    {
        let closed = ReaderHandle {
            is_open: false,
            inner: ReaderBox::none(),
        };
        let ReaderHandle { is_open, inner } = mem::replace(self, closed);
        if is_open {
            Some(inner.into_loose(alloc).into_box())
        } else {
            inner.end();
            None
        }
    }

    /// Puts it into a closed one.
    pub(crate) fn put(&mut self, reading: Box<Reading, Global>)
        requires { self.old.inner.held ≡ None }
        ensures { self.new.inner.held ≡ Some reading.value }
    {
        let open = ReaderHandle {
            is_open: true,
            inner: ReaderBox::of(Loose::of(reading)),
        };
        let ReaderHandle { is_open: _, inner } = mem::replace(self, open);
        inner.end();
    }

    /// Whether it is open.
    pub(crate) fn is_open(&self) -> bool
        ensures { result ≡ is_some self.now.inner.held }
    {
        self.is_open
    }
}
