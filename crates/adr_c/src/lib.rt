//! The resolver for callers that are not Rattle: an editor and readers behind handles that the caller keeps.
//!
//! Each call answers 0, or the number of the refusal (1 to 29, 98 or 99), or a code from 100 on for what C alone can
//! get wrong. A handle of zeros is closed, and may be passed to each call. A call that is refused changes nothing.
#![tactic(auto)]

ghost use Rattle.std.specs.Prelude.{◌≡◌, option_map, Some, ⊤};
ghost use Rattle.adr_embed.specs.Governor.{governor_told};
ghost use Rattle.adr_embed.specs.Steps.{changed, created, removed};
ghost use Rattle.adr_c.specs.Calls.{anew, answer_held, kind_numbered, last_of, reply_held, AskCall, Closes, CondenseCall, EditCall, GovernorCall, IsGiven, LineCall, Opens, OverOpen, PublishCall, Sees};

mod calls;
mod editor;
mod laws;
mod loose;
mod reader;
mod state;

use adr_embed::{Editing, Reading};
use adr_value::Refusal;
use calls::{code, give, tie_numbered};
pub use editor::{EditorBox, EditorHandle};
pub use laws::handles_cross;
pub use reader::{ReaderBox, ReaderHandle};
pub use state::GovernorState;
use std::alloc::Global;

/// The handle is closed.
const CLOSED: u32 = 100;
/// The handle is open, and a call that opens wants a closed one.
const OPEN: u32 = 101;
/// No such rule for ties.
const BAD_TIE: u32 = 102;

/// Opens an editor with no objects, published as number 0, in a closed handle. `tie` is 0 where the newest of two
/// intervals of one priority governs, 1 where the one that starts latest does.
#[unsafe(no_mangle)]
pub extern "C" fn kuvteleg_open(alloc: Global, editor: &mut EditorHandle, tie: u32) -> u32
    ensures { Opens editor.old.inner.held tie editor.new.inner.held result }
{
    if editor.is_open() {
        return OPEN;
    }
    let Some(tie) = tie_numbered(tie) else {
        return BAD_TIE;
    };
    let Ok(editing) = Editing::open(alloc, tie) else {
        return code(Refusal::NoMemory);
    };
    let Ok(editing) = Box::new(alloc, editing) else {
        return code(Refusal::NoMemory);
    };
    editor.put(editing);
    0
}

/// Makes an edit that creates the object of a kind that a body spells, under an id, at a moment. `version` is told the
/// version after it.
#[unsafe(no_mangle)]
pub extern "C" fn kuvteleg_create(
    alloc: Global,
    editor: &mut EditorHandle,
    seconds: i64,
    nanoseconds: u32,
    kind: u32,
    id: &[u8],
    body: &[u8],
    version: &mut u64,
) -> u32
    ensures { OverOpen editor.old.inner.held editor.new.inner.held result (version.new ≡ version.old) (λ old new. EditCall old new (option_map (λ kind. created seconds nanoseconds kind id.now body.now) (kind_numbered kind)) result version.old version.new) }
{
    let Some(mut editing) = editor.take(alloc) else {
        return CLOSED;
    };
    let code = calls::create(&mut editing, seconds, nanoseconds, kind, id, body, version);
    editor.put(editing);
    code
}

/// Makes an edit that puts a whole object in the place of the one with its id, as [`kuvteleg_create`] makes one.
#[unsafe(no_mangle)]
pub extern "C" fn kuvteleg_change(
    alloc: Global,
    editor: &mut EditorHandle,
    seconds: i64,
    nanoseconds: u32,
    kind: u32,
    id: &[u8],
    body: &[u8],
    version: &mut u64,
) -> u32
    ensures { OverOpen editor.old.inner.held editor.new.inner.held result (version.new ≡ version.old) (λ old new. EditCall old new (option_map (λ kind. changed seconds nanoseconds kind id.now body.now) (kind_numbered kind)) result version.old version.new) }
{
    let Some(mut editing) = editor.take(alloc) else {
        return CLOSED;
    };
    let code = calls::change(&mut editing, seconds, nanoseconds, kind, id, body, version);
    editor.put(editing);
    code
}

/// Makes an edit that takes an object away. At which moment changes nothing, so none is asked for.
#[unsafe(no_mangle)]
pub extern "C" fn kuvteleg_delete(
    alloc: Global,
    editor: &mut EditorHandle,
    kind: u32,
    id: &[u8],
    version: &mut u64,
) -> u32
    ensures { OverOpen editor.old.inner.held editor.new.inner.held result (version.new ≡ version.old) (λ old new. EditCall old new (option_map (λ kind. removed kind id.now) (kind_numbered kind)) result version.old version.new) }
{
    let Some(mut editing) = editor.take(alloc) else {
        return CLOSED;
    };
    let code = calls::remove(&mut editing, kind, id, version);
    editor.put(editing);
    code
}

/// Publishes the objects as they are. Readers that look from now on see them.
#[unsafe(no_mangle)]
pub extern "C" fn kuvteleg_publish(
    alloc: Global,
    editor: &mut EditorHandle,
    number: &mut u64,
    version: &mut u64,
) -> u32
    ensures { OverOpen editor.old.inner.held editor.new.inner.held result ((number.new ≡ number.old) × (version.new ≡ version.old)) (λ old new. PublishCall old new result (number.old, version.old) (number.new, version.new)) }
{
    let Some(mut editing) = editor.take(alloc) else {
        return CLOSED;
    };
    let code = calls::publish(&mut editing, number, version);
    editor.put(editing);
    code
}

/// Counts the accepted edits from the last publication on, whose version is told, and lets go of what was kept of those
/// before it.
#[unsafe(no_mangle)]
pub extern "C" fn kuvteleg_condense(
    alloc: Global,
    editor: &mut EditorHandle,
    version: &mut u64,
) -> u32
    ensures { OverOpen editor.old.inner.held editor.new.inner.held result (version.new ≡ version.old) (λ old new. CondenseCall old new result version.old version.new) }
{
    let Some(mut editing) = editor.take(alloc) else {
        return CLOSED;
    };
    let code = calls::condense(&mut editing, version);
    editor.put(editing);
    code
}

/// Answers a line of the script. The reply goes to `out` if there is room for it, and its length to `len`; it also
/// stays with the handle for [`kuvteleg_reply`]. A refused line has no reply.
#[unsafe(no_mangle)]
pub extern "C" fn kuvteleg_line(
    alloc: Global,
    editor: &mut EditorHandle,
    line: &[u8],
    out: &mut [u8],
    len: &mut usize,
) -> u32
    ensures line { OverOpen editor.old.inner.held editor.new.inner.held result ⊤ (λ old new. LineCall old new line.now result) }
    ensures reply { IsGiven (reply_held editor.new.inner.held) out.old out.new len.new }
{
    let Some(mut editing) = editor.take(alloc) else {
        give(&[], out, len);
        return CLOSED;
    };
    let code = calls::line(&mut editing, line);
    give(editing.reply(), out, len);
    editor.put(editing);
    code
}

/// The reply to the last line, once more.
#[unsafe(no_mangle)]
pub extern "C" fn kuvteleg_reply(
    alloc: Global,
    editor: &mut EditorHandle,
    out: &mut [u8],
    len: &mut usize,
) -> u32
    ensures call { OverOpen editor.old.inner.held editor.new.inner.held result ⊤ (λ old new. (result ≡ 0) × (new ≡ old)) }
    ensures reply { IsGiven (reply_held editor.new.inner.held) out.old out.new len.new }
{
    let Some(editing) = editor.take(alloc) else {
        give(&[], out, len);
        return CLOSED;
    };
    give(editing.reply(), out, len);
    editor.put(editing);
    0
}

/// Has the reader see the editor's last publication. A reader that is open gives up the one that it has.
#[unsafe(no_mangle)]
pub extern "C" fn kuvteleg_look(
    alloc: Global,
    editor: &mut EditorHandle,
    reader: &mut ReaderHandle,
) -> u32
    ensures same { editor.new.inner.held ≡ editor.old.inner.held }
    ensures sees { Sees (option_map last_of editor.old.inner.held) reader.old.inner.held reader.new.inner.held result }
{
    let Some(editing) = editor.take(alloc) else {
        return CLOSED;
    };
    let seen = editing.look(alloc);
    editor.put(editing);
    let Ok(reading) = seen else {
        return code(Refusal::NoMemory);
    };
    see(alloc, reading, reader)
}

/// Puts what is seen into the reader.
fn see(alloc: Global, reading: Reading, reader: &mut ReaderHandle) -> u32
    ensures { Sees (Some reading) reader.old.inner.held reader.new.inner.held result }
{
    let Ok(reading) = Box::new(alloc, reading) else {
        return code(Refusal::NoMemory);
    };
    drop(reader.take(alloc));
    reader.put(reading);
    0
}

/// Has another reader see the same publication. The two readers are two handles.
#[unsafe(no_mangle)]
pub extern "C" fn kuvteleg_share(
    alloc: Global,
    from: &mut ReaderHandle,
    to: &mut ReaderHandle,
) -> u32
    ensures same { from.new.inner.held ≡ from.old.inner.held }
    ensures sees { Sees (option_map anew from.old.inner.held) to.old.inner.held to.new.inner.held result }
{
    let Some(reading) = from.take(alloc) else {
        return CLOSED;
    };
    let seen = reading.share(alloc);
    from.put(reading);
    let Ok(reading) = seen else {
        return code(Refusal::NoMemory);
    };
    see(alloc, reading, to)
}

/// The number of the reader's publication, and its version.
#[unsafe(no_mangle)]
pub extern "C" fn kuvteleg_seen(
    alloc: Global,
    reader: &mut ReaderHandle,
    number: &mut u64,
    version: &mut u64,
) -> u32
    ensures { OverOpen reader.old.inner.held reader.new.inner.held result ((number.new ≡ number.old) × (version.new ≡ version.old)) (λ old new. (result ≡ 0) × (new ≡ old) × (number.new ≡ old.number) × (version.new ≡ old.book.version)) }
{
    let Some(reading) = reader.take(alloc) else {
        return CLOSED;
    };
    *number = reading.number();
    *version = reading.version();
    reader.put(reading);
    0
}

/// Answers a query of the script from the reader's publication, as [`kuvteleg_line`] answers lines of an editor.
#[unsafe(no_mangle)]
pub extern "C" fn kuvteleg_ask(
    alloc: Global,
    reader: &mut ReaderHandle,
    line: &[u8],
    out: &mut [u8],
    len: &mut usize,
) -> u32
    ensures line { OverOpen reader.old.inner.held reader.new.inner.held result ⊤ (λ old new. AskCall old new line.now result) }
    ensures reply { IsGiven (answer_held reader.new.inner.held) out.old out.new len.new }
{
    let Some(mut reading) = reader.take(alloc) else {
        give(&[], out, len);
        return CLOSED;
    };
    let code = calls::ask(alloc, &mut reading, line);
    give(reading.reply(), out, len);
    reader.put(reading);
    code
}

/// What governs the resource for the payload type at the moment, in numbers. The event's id and the values as a JSON
/// array go to `out` as a reply does.
#[unsafe(no_mangle)]
pub extern "C" fn kuvteleg_governor(
    alloc: Global,
    reader: &mut ReaderHandle,
    resource: &[u8],
    payload_type: &[u8],
    seconds: i64,
    nanoseconds: u32,
    state: &mut GovernorState,
    out: &mut [u8],
    len: &mut usize,
) -> u32
    ensures call { OverOpen reader.old.inner.held reader.new.inner.held result (state.new ≡ state.old) (λ old new. GovernorCall old new (governor_told old.tie old.book resource.now payload_type.now seconds nanoseconds) result state.old state.new) }
    ensures reply { IsGiven (answer_held reader.new.inner.held) out.old out.new len.new }
{
    let Some(mut reading) = reader.take(alloc) else {
        give(&[], out, len);
        return CLOSED;
    };
    let code = calls::governor(
        alloc,
        &mut reading,
        resource,
        payload_type,
        seconds,
        nanoseconds,
        state,
    );
    give(reading.reply(), out, len);
    reader.put(reading);
    code
}

/// The reader's last answer, once more.
#[unsafe(no_mangle)]
pub extern "C" fn kuvteleg_answer(
    alloc: Global,
    reader: &mut ReaderHandle,
    out: &mut [u8],
    len: &mut usize,
) -> u32
    ensures call { OverOpen reader.old.inner.held reader.new.inner.held result ⊤ (λ old new. (result ≡ 0) × (new ≡ old)) }
    ensures reply { IsGiven (answer_held reader.new.inner.held) out.old out.new len.new }
{
    let Some(reading) = reader.take(alloc) else {
        give(&[], out, len);
        return CLOSED;
    };
    give(reading.reply(), out, len);
    reader.put(reading);
    0
}

/// Closes the reader, which lets its publication go.
#[unsafe(no_mangle)]
pub extern "C" fn kuvteleg_leave(alloc: Global, reader: &mut ReaderHandle) -> u32
    ensures { Closes reader.old.inner.held reader.new.inner.held result }
{
    match reader.take(alloc) {
        Some(reading) => {
            drop(reading);
            0
        }
        None => CLOSED,
    }
}

/// Closes the editor. Readers keep their publications.
#[unsafe(no_mangle)]
pub extern "C" fn kuvteleg_close(alloc: Global, editor: &mut EditorHandle) -> u32
    ensures { Closes editor.old.inner.held editor.new.inner.held result }
{
    match editor.take(alloc) {
        Some(editing) => {
            drop(editing);
            0
        }
        None => CLOSED,
    }
}
