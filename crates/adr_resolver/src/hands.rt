//! Who makes the edits of a script.
ghost use Rattle.std.specs.Prelude.{◌≡◌, ◌⊎◌, ◌≤◌, OnOk, OnErr, IfOk, IfErr, Ok, Err};
ghost use Rattle.adr_value.specs.declared.limits.TheConstants.{MOST_VERSION};
ghost use Rattle.adr_refusal.specs.declared.refusal.Refusal.TheVariants.{NoMemory};
ghost use Rattle.adr_model.specs.Edits.{full_at, step_to};
ghost use Rattle.adr_resolver.specs.Shown.{kept_of};

use adr_board::{Editor, Naming, NoGate};
use adr_object::Edit;
use adr_value::Refusal;
use std::thread::Threads;

/// Who makes the edits of a script on its editor.
///
/// An implementer says by `ready` what it asks of its runtime: inside a trait's method a thread can't be started on the
/// bounds of the implementer alone, and who makes it knows more.
pub(crate) trait Hands: Drop {
    // What holds of the runtime.
    ghost ready: { Type 0 };

    /// Makes an edit and answers the version, or the least fault.
    fn edit<J: Naming>(&self, editor: &mut Editor<J>, edit: Edit) -> Result<u64, Refusal>
        requires { ready }
        ensures ok { IfOk result (λ version. (step_to (full_at (kept_of editor.old).base) (kept_of editor.old).current edit ≡ Ok (kept_of editor.new).current)
            × (version ≡ (kept_of editor.new).current.version)) }
        ensures bound { IfOk result (λ version. version ≤ MOST_VERSION) }
        ensures kept { OnOk result (kept_of editor.new ≡ record (kept_of editor.old) { current = (kept_of editor.new).current }) }
        ensures refused { IfErr result (λ refusal. (refusal ≡ NoMemory) ⊎ (step_to (full_at (kept_of editor.old).base) (kept_of editor.old).current edit ≡ Err refusal)) }
        ensures unchanged { OnErr result (kept_of editor.new ≡ kept_of editor.old) };
}

/// So many workers, who share out the repair of timelines.
#[derive(Drop)]
pub(crate) struct Workers<'a, R> {
    pub(crate) rt: &'a R,
    pub(crate) count: usize,
}

impl<R: Threads + Sync> Hands for Workers<'_, R> {
    ghost use denote.Param.Send.{IsSync};

    ghost ready = { IsSync R.row };

    fn edit<J: Naming>(&self, editor: &mut Editor<J>, edit: Edit) -> Result<u64, Refusal> {
        let _receipt = editor.apply_with(self.rt, self.count, &NoGate, edit)?;
        Ok(editor.desk().book().version())
    }
}
