//! What a script asks of a resolver.
ghost use Rattle.std.specs.Prelude.{◌≡◌, ◌+◌, ◌⊎◌, ◌<◌, ◌≤◌, OnOk, OnErr, IfOk, IfErr, Ok, Err};
ghost use Rattle.adr_refusal.specs.Answer.{Answers, OnlyNoMemory, result_map};
ghost use Rattle.adr_value.specs.declared.limits.TheConstants.{MOST_PUBLICATIONS, MOST_VERSION};
ghost use Rattle.adr_refusal.specs.declared.refusal.Refusal.TheVariants.{NoMemory, Full};
ghost use Rattle.adr_model.specs.Answer.{at};
ghost use Rattle.adr_model.specs.Edits.{full_at, step_to};
ghost use Rattle.adr_model.specs.Queries.{list, roll, types};

use adr_model::Published;
use adr_object::{Edit, Id};
use adr_time::Moment;
use adr_value::{PayloadType, Refusal};
use std::sync::Wait;

/// What answers the commands of a script: it keeps the objects that the edits left and those that were published last,
/// and answers queries from the latter.
///
/// An implementer says by `kept` what it shows of the machine of edits and publications. `NoMemory` may come in place
/// of any answer, and a refusal changes nothing.
pub trait Resolver {
    ghost use Rattle.adr_model.specs.Kept.{Kept};

    // What it shows of the machine.
    ghost kept: { Self → Kept };

    /// Makes an edit and answers the version.
    ///
    /// # Errors
    ///
    /// The least of the edit's faults; `NoMemory` in place of any. Nothing is changed then.
    fn edit(&mut self, edit: Edit) -> Result<u64, Refusal>
        ensures ok { IfOk result (λ version. (step_to (full_at (kept self.old).base) (kept self.old).current edit ≡ Ok (kept self.new).current)
            × (version ≡ (kept self.new).current.version)) }
        ensures bound { IfOk result (λ version. version ≤ MOST_VERSION) }
        ensures kept { OnOk result (kept self.new ≡ record (kept self.old) { current = (kept self.new).current }) }
        ensures refused { IfErr result (λ refusal. (refusal ≡ NoMemory) ⊎ (step_to (full_at (kept self.old).base) (kept self.old).current edit ≡ Err refusal)) }
        ensures unchanged { OnErr result (kept self.new ≡ kept self.old) };

    /// Publishes the objects as they are. It may wait for readers that are taking a share.
    ///
    /// # Errors
    ///
    /// `Full` after 1,000,000 publications, else `NoMemory`. Nothing is changed then.
    fn publish<H: Wait>(&mut self, rt: &H) -> Result<Published, Refusal>
        ensures ok { OnOk result (((kept self.old).number < MOST_PUBLICATIONS)
            × (kept self.new ≡ record (kept self.old) { published = (kept self.old).current; number = (kept self.old).number + 1 })) }
        ensures bound { IfOk result (λ p. (p.number ≤ MOST_PUBLICATIONS) × (p.version ≤ MOST_VERSION)) }
        ensures answer { IfOk result (λ p. (p.number ≡ (kept self.old).number + 1) × (p.version ≡ (kept self.old).current.version)) }
        ensures refused { IfErr result (λ refusal. (refusal ≡ NoMemory) ⊎ ((refusal ≡ Full) × (MOST_PUBLICATIONS ≤ (kept self.old).number))) }
        ensures unchanged { OnErr result (kept self.new ≡ kept self.old) };

    /// Counts the accepted edits from the last publication on, and answers its version.
    ///
    /// # Errors
    ///
    /// `NoMemory` where there is no room. Nothing is changed then.
    fn condense(&mut self) -> Result<u64, Refusal>
        ensures answer { IfOk result (λ version. version ≡ (kept self.old).published.version) }
        ensures bound { IfOk result (λ version. version ≤ MOST_VERSION) }
        ensures base { OnOk result (kept self.new ≡ record (kept self.old) { base = (kept self.old).published.version }) }
        ensures memory { OnlyNoMemory result }
        ensures unchanged { OnErr result (kept self.new ≡ kept self.old) };

    /// The reply to `at`, with its line feed.
    ///
    /// # Errors
    ///
    /// `UnknownResource` where the last publication has no such resource, else `NoMemory`.
    fn at(&self, id: &Id, payload_type: &PayloadType, moment: Moment) -> Result<Vec<u8>, Refusal>
        ensures { Answers (result_map (λ v. v.items) result) (at (kept self.now).tie (kept self.now).published id.now payload_type.now moment) };

    /// The reply to `list`, with its line feeds.
    ///
    /// # Errors
    ///
    /// `BadWindow` where the window doesn't start before its end; else as of `at`.
    fn list(
        &self,
        id: &Id,
        payload_type: &PayloadType,
        from: Moment,
        to: Moment,
    ) -> Result<Vec<u8>, Refusal>
        ensures { Answers (result_map (λ v. v.items) result) (list (kept self.now).tie (kept self.now).published id.now payload_type.now from to) };

    /// The reply to `roll`, with its line feeds.
    ///
    /// # Errors
    ///
    /// `NoMemory` where there is no room for the reply.
    fn roll(&self, payload_type: &PayloadType, moment: Moment) -> Result<Vec<u8>, Refusal>
        ensures { Answers (result_map (λ v. v.items) result) (roll (kept self.now).tie (kept self.now).published payload_type.now moment) };

    /// The reply to `types`, with its line feeds.
    ///
    /// # Errors
    ///
    /// As of `at`.
    fn types(&self, id: &Id) -> Result<Vec<u8>, Refusal>
        ensures { Answers (result_map (λ v. v.items) result) (types (kept self.now).tie (kept self.now).published id.now) };

    /// Ends it, once there are no more commands.
    fn close<H: Wait>(self, rt: &H);
}
