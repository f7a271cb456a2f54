//! Edits and publications of the one writer, as the machine of edits and publications makes them.
ghost use Rattle.std.specs.Prelude.{◌≤◌, IfOk, Ok};
ghost use Rattle.adr_value.specs.declared.limits.TheConstants.{MOST_PUBLICATIONS, MOST_VERSION};
ghost use Rattle.adr_embed.specs.Held.{kept_of};
ghost use Rattle.adr_embed.specs.Steps.{IsCondensed, IsEdit, IsPublication};

use adr_board::Publisher;
use adr_model::Published;
use adr_object::Edit;
use adr_value::Refusal;

/// Makes an edit and answers the version after it, or the least fault.
pub(crate) fn edit(publisher: &mut Publisher, edit: Edit) -> Result<u64, Refusal>
    ensures edit { IsEdit (kept_of publisher.old) (kept_of publisher.new) (Ok edit) result }
    ensures bound { IfOk result (λ version. version ≤ MOST_VERSION) }
{
    let _receipt = publisher.apply(edit)?;
    Ok(publisher.desk().book().version())
}

/// Publishes the objects as they are. `Full` after 1,000,000 publications, else `NoMemory`. It waits for nobody, as
/// readers have shares of snapshots.
pub(crate) fn publish(publisher: &mut Publisher) -> Result<Published, Refusal>
    ensures publication { IsPublication (kept_of publisher.old) (kept_of publisher.new) result }
    ensures bound { IfOk result (λ p. (p.number ≤ MOST_PUBLICATIONS) × (p.version ≤ MOST_VERSION)) }
{
    let prepared = publisher.prepare()?;
    publisher.go_on_with(prepared);
    let last = publisher.last();
    Ok(Published {
        number: last.number(),
        version: last.version(),
    })
}

/// Counts the accepted edits from the last publication on, and answers its version, or `NoMemory`.
pub(crate) fn condense(publisher: &mut Publisher) -> Result<u64, Refusal>
    ensures condensed { IsCondensed (kept_of publisher.old) (kept_of publisher.new) result }
    ensures bound { IfOk result (λ version. version ≤ MOST_VERSION) }
{
    let _version = publisher.condense()?;
    Ok(publisher.last().version())
}
