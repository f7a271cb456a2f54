//! The editor of a board, as what a script asks.
use crate::hands::Hands;
use crate::resolver::Resolver;
use adr_board::{Board, Editor, Naming, NewBoard};
use adr_model::{Published, Tie};
use adr_object::{Edit, Id};
use adr_time::Moment;
use adr_value::{PayloadType, Refusal};
use std::alloc::Global;
use std::marker::Model;
use std::sync::Wait;

/// The editor of a board: edits repair its timelines, and queries are answered from its last publication. It is not
/// `Drop`: end it by `close`.
pub(crate) struct EditedBoard<J: Naming, C: Hands> {
    editor: Editor<J>,
    hands: C,
    alloc: Global,
}

impl<J: Naming, C: Hands> Model for EditedBoard<J, C> {
    ghost use Rattle.adr_model.specs.Kept.{Kept};
    ghost use Rattle.adr_resolver.specs.Shown.{kept_of};

    ghost Value = { Kept };

    ghost view = { λ e. kept_of e.editor };

    ghost invariant = { λ e. C.ready };
}

impl<J: Naming, C: Hands> EditedBoard<J, C> {
    ghost use Rattle.std.specs.Prelude.{◌≡◌, IfOk};
    ghost use Rattle.adr_model.specs.Kept.{kept_start};

    /// The editor of a board of its own, with no objects, published as number 0. The place of its one reader is given
    /// back. `NoMemory` or `NoRuntime` where the board can't be opened.
    pub(crate) fn open<H: Wait>(
        rt: &H,
        alloc: Global,
        hands: C,
        board: NewBoard,
        tie: Tie,
    ) -> Result<EditedBoard<J, C>, Refusal>
        requires ready { C.ready }
        requires history { board.diary.page.book ≡ J.history }
        requires tie { tie ≡ J.tie }
        ensures { IfOk result (λ edited. edited ≡ kept_start tie) }
    {
        let (editor, readers) = Board::open::<J, H>(rt, alloc, board, 1, tie)?;
        drop(readers);
        Ok(EditedBoard {
            editor,
            hands,
            alloc,
        })
    }
}

impl<J: Naming, C: Hands> Resolver for EditedBoard<J, C> {
    ghost kept = { λ e. e };

    fn edit(&mut self, edit: Edit) -> Result<u64, Refusal> {
        self.hands.edit(&mut self.editor, edit)
    }

    fn publish<H: Wait>(&mut self, rt: &H) -> Result<Published, Refusal> {
        let _last = self.editor.last();
        let _version = self.editor.desk().book().version();
        self.editor.publish(rt)
    }

    fn condense(&mut self) -> Result<u64, Refusal> {
        let _version = self.editor.condense()?;
        Ok(self.editor.last().version())
    }

    fn at(&self, id: &Id, payload_type: &PayloadType, moment: Moment) -> Result<Vec<u8>, Refusal> {
        adr_calendar::at(self.alloc, &**self.editor.last(), id, payload_type, moment)
    }

    fn list(
        &self,
        id: &Id,
        payload_type: &PayloadType,
        from: Moment,
        to: Moment,
    ) -> Result<Vec<u8>, Refusal> {
        adr_calendar::list(
            self.alloc,
            &**self.editor.last(),
            id,
            payload_type,
            from,
            to,
        )
    }

    fn roll(&self, payload_type: &PayloadType, moment: Moment) -> Result<Vec<u8>, Refusal> {
        adr_calendar::roll(self.alloc, &**self.editor.last(), payload_type, moment)
    }

    fn types(&self, id: &Id) -> Result<Vec<u8>, Refusal> {
        adr_calendar::types(self.alloc, &**self.editor.last(), id)
    }

    fn close<H: Wait>(self, rt: &H) {
        let EditedBoard {
            editor,
            hands,
            alloc: _,
        } = self;
        drop(hands);
        editor.close(rt);
    }
}
