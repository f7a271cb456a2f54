//! What an accepted edit did.
ghost use Rattle.std.specs.Prelude.{◌≡◌, Ok, IfOk, flat_map};
ghost use Rattle.adr_refusal.specs.Answer.{OnlyNoMemory};
ghost use Rattle.adr_refusal.specs.Copy.{IsCopyOf};
ghost use Rattle.adr_model.specs.Edits.{step};
ghost use Rattle.adr_model.specs.Touches.{touches as touches_between_books};
ghost use Rattle.adr_touches.specs.Edited.{AreByResource};

use adr_book::Book;
use adr_model::Touch;
use adr_object::Edit;
use adr_touches::{EditTouches, edit_touches};
use adr_value::Refusal;
use std::alloc::Global;
use std::marker::Model;

/// Where an edit may have changed what governs: touches by resource, then by event, the old event before the new one,
/// then by interval and type; one window may stand twice. Contracts see the list.
///
/// It keeps the edit and the books before and after it, which share all that the edit left, and lists on demand: one
/// edit may touch hundreds of thousands of windows.
pub struct Touched {
    old: Book,
    new: Book,
    edit: Edit,
}

// A function of its own, so that callers that let a value go need not look into it.
impl Drop for Touched {
    fn drop(self) {
        let Touched { old, new, edit } = self;
        drop(old);
        drop(new);
        drop(edit);
    }
}

impl Model for Touched {
    ghost use Rattle.std.specs.Prelude.{◌≡◌, List, Ok};
    ghost use Rattle.adr_model.specs.declared.touch.Touch.{Touch as AnyTouch};
    ghost use Rattle.adr_model.specs.Edits.{step};
    ghost use Rattle.adr_model.specs.Touches.{touches as touches_between_books};

    ghost Value = { List AnyTouch };

    ghost view = { λ t. touches_between_books t.old.objects t.new.objects };

    ghost invariant = { λ t. step t.old.objects t.edit ≡ Ok t.new.objects };
}

impl Touched {
    /// The touches between the books before and after an edit, of which it keeps copies, which share all.
    pub(crate) fn between(old: &Book, new: &Book, edit: &Edit) -> Result<Touched, Refusal>
        requires { step old.now.objects edit.now ≡ Ok new.now.objects }
        ensures touched { IfOk result (λ touched. touched ≡ touches_between_books old.now.objects new.now.objects) }
        ensures refusal { OnlyNoMemory result }
    {
        Ok(Touched {
            old: old.copy()?,
            new: new.copy()?,
            edit: edit.copy()?,
        })
    }

    /// The touches, listed. Cost: a look at each resource and event; of an event that is written or removed, it is held
    /// against each resource; of a program that changes, each of its events against each resource; of a ven, each of
    /// its resources against each event; of a resource, it against each event.
    ///
    /// # Errors
    ///
    /// `NoMemory` where there is no room for the list.
    pub fn to_vec(&self, alloc: Global) -> Result<Vec<Touch>, Refusal>
        ensures list { IfOk result (λ list. list.items ≡ self.now) }
        ensures memory { OnlyNoMemory result }
    {
        edit_touches(alloc, &self.old, &self.new, &self.edit)
    }

    /// The touches, to be listed resource by resource: one after the other these lists are that of `to_vec`, and no
    /// more than one of them is held.
    ///
    /// # Errors
    ///
    /// `NoMemory` where there is no room for the ids of the objects that the edit concerns.
    pub fn by_resource(&self, alloc: Global) -> Result<EditTouches<'_>, Refusal>
        ensures left { IfOk result (λ left. flat_map (λ list. list) left ≡ self.now) }
        ensures resources { IfOk result AreByResource }
        ensures memory { OnlyNoMemory result }
    {
        EditTouches::of(alloc, &self.old, &self.new, &self.edit)
    }

    /// A copy that shares all with these touches.
    ///
    /// # Errors
    ///
    /// `NoMemory` only where a share is refused.
    pub fn copy(&self) -> Result<Touched, Refusal>
        ensures { IsCopyOf result self.now }
    {
        Ok(Touched {
            old: self.old.copy()?,
            new: self.new.copy()?,
            edit: self.edit.copy()?,
        })
    }
}

/// What an accepted edit did: the version after it, where it may have changed what governs, and how often its
/// repairs compared two ranks.
pub struct Receipt {
    /// The number of accepted edits.
    pub version: u64,
    /// The windows inside which timelines were repaired.
    pub touched: Touched,
    /// How many times two ranks were compared.
    pub compares: u128,
}

// A function of its own, so that callers that let a value go need not look into it.
impl Drop for Receipt {
    fn drop(self) {
        let Receipt {
            version: _,
            touched,
            compares: _,
        } = self;
        drop(touched);
    }
}
