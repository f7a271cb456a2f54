//! What C holds of an editor.
ghost use Rattle.std.specs.Prelude.{◌≡◌, Option, None, Some, is_some, true, IfSome, IfNone};
ghost use Rattle.std.specs.Coded.{coded_option};
ghost use Rattle.adr_embed.specs.Held.{Edited};
ghost use Rattle.adr_embed.specs.contracts.editing.Editing.{the_row as editing_row};
ghost use Rattle.adr_c.specs.Owned.{owned};

use crate::loose::Loose;
use adr_embed::Editing;
use std::alloc::Global;
use std::marker::Model;
use std::{mem, ptr};

/// A box of an editor as its pointer, or nothing.
#[repr(C)]
pub struct EditorBox {
    at: *mut u8,
    ghost held: { Option Edited } by { coded_option editing_row.coded },
}

impl Model for EditorBox {
    ghost also_owns = { λ i. owned editing_row i.at i.held };
}

impl EditorBox {
    /// Keeps the pointer of a box.
    fn of(loose: Loose<Editing, Global>) -> EditorBox
        ensures { result.held ≡ Some loose.value }
    {
        let Loose { at, alloc: _ } = loose;
        EditorBox { at: at.cast() }
    }

    /// Keeps nothing.
    fn none() -> EditorBox
        ensures { result.held ≡ None }
    {
        EditorBox {
            at: ptr::null_mut(),
        }
    }

    /// Lets go of nothing.
    fn end(self)
        requires { self.held ≡ None }
    {
        let EditorBox { at: _ } = self;
    }

    /// The box that the pointer is of.
    fn into_loose(self, alloc: Global) -> Loose<Editing, Global>
        requires { is_some self.held ≡ true }
        ensures { self.held ≡ Some result.value }
    {
        let EditorBox { at } = self;
        Loose {
            at: at.cast(),
            alloc,
        }
    }
}

/// An editor in C's hands. One of zeros is closed.
#[repr(C)]
pub struct EditorHandle {
    is_open: bool,
    inner: EditorBox,
    ghost agrees: { is_open ≡ is_some inner.held },
}

impl EditorHandle {
    /// What it holds, if it is open. It is closed from then on.
    pub(crate) fn take(&mut self, alloc: Global) -> Option<Box<Editing, Global>>
        ensures some { IfSome result (λ b. self.old.inner.held ≡ Some b.value) }
        ensures none { IfNone result (self.old.inner.held ≡ None) }
        ensures closed { self.new.inner.held ≡ None }
    {
        let closed = EditorHandle {
            is_open: false,
            inner: EditorBox::none(),
        };
        let EditorHandle { is_open, inner } = mem::replace(self, closed);
        if is_open {
            Some(inner.into_loose(alloc).into_box())
        } else {
            inner.end();
            None
        }
    }

    /// Puts it into a closed one.
    pub(crate) fn put(&mut self, editing: Box<Editing, Global>)
        requires { self.old.inner.held ≡ None }
        ensures { self.new.inner.held ≡ Some editing.value }
    {
        let open = EditorHandle {
            is_open: true,
            inner: EditorBox::of(Loose::of(editing)),
        };
        let EditorHandle { is_open: _, inner } = mem::replace(self, open);
        inner.end();
    }

    /// Whether it is open.
    pub(crate) fn is_open(&self) -> bool
        ensures { result ≡ is_some self.now.inner.held }
    {
        self.is_open
    }
}
