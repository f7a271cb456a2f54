//! The forms of the script's lines, by their words.
ghost use Rattle.std.specs.Prelude.{◌≡◌, ◌≤◌, length, Option};
ghost use Rattle.std.specs.List.{prefix_len};
ghost use Rattle.std.specs.Option.{option_map};
ghost use Rattle.adr_resolver.specs.Fields.{is_word_byte, after_space, first_word, last_word, after_word, kind_named, verb_named, edit_line, write_line, delete_line, at_line, list_line, roll_line, types_line};
ghost use Rattle.adr_resolver.specs.Views.{pair_view, edit_view, write_view, delete_view, at_view, list_view, roll_view};

use adr_object::Kind;

/// What an edit with a body does with its object.
#[derive(Clone, Copy)]
pub(crate) enum Verb {
    Create,
    Change,
}

/// The words that all `edit` lines begin with, and what stands after them.
#[derive(Clone, Copy)]
struct EditLine<'a> {
    moment: &'a [u8],
    verb: &'a [u8],
    kind: Kind,
    rest: &'a [u8],
}

/// The words of an `edit .. create` or `edit .. change` line, and its body.
#[derive(Clone, Copy)]
pub(crate) struct WriteLine<'a> {
    pub(crate) moment: &'a [u8],
    pub(crate) verb: Verb,
    pub(crate) kind: Kind,
    pub(crate) id: &'a [u8],
    pub(crate) body: &'a [u8],
}

/// The words of an `edit .. delete` line.
#[derive(Clone, Copy)]
pub(crate) struct DeleteLine<'a> {
    pub(crate) moment: &'a [u8],
    pub(crate) kind: Kind,
    pub(crate) id: &'a [u8],
}

/// The words of an `at` line.
#[derive(Clone, Copy)]
pub(crate) struct AtLine<'a> {
    pub(crate) resource: &'a [u8],
    pub(crate) payload_type: &'a [u8],
    pub(crate) moment: &'a [u8],
}

/// The words of a `list` line.
#[derive(Clone, Copy)]
pub(crate) struct ListLine<'a> {
    pub(crate) resource: &'a [u8],
    pub(crate) payload_type: &'a [u8],
    pub(crate) from: &'a [u8],
    pub(crate) to: &'a [u8],
}

/// The words of a `roll` line.
#[derive(Clone, Copy)]
pub(crate) struct RollLine<'a> {
    pub(crate) payload_type: &'a [u8],
    pub(crate) moment: &'a [u8],
}

/// How many bytes of a word a text begins with.
fn word_len(text: &[u8]) -> usize
    ensures value { result ≡ prefix_len is_word_byte text.now }
    ensures bound { result ≤ length text.now }
{
    text.iter().take_while(|byte| **byte != b' ').count()
}

/// What stands after a space.
fn after_space(text: &[u8]) -> Option<&[u8]>
    ensures { option_map (λ rest. rest.now) result ≡ after_space text.now }
{
    match text {
        [_, rest @ ..] => Some(rest),
        [] => None,
    }
}

/// The first word of a text that goes on after it, and what stands after its space.
#[tactic(auto, unfolding(crate::specs::Fields::first_word))]
fn first_word(text: &[u8]) -> Option<(&[u8], &[u8])>
    ensures { option_map pair_view result ≡ first_word text.now }
{
    let len = word_len(text);
    if len == 0 {
        return None;
    }
    let (word, rest) = text.split_at(len);
    Some((word, after_space(rest)?))
}

/// The last word, after which the line ends.
#[tactic(auto, unfolding(crate::specs::Fields::last_word))]
fn last_word(text: &[u8]) -> Option<&[u8]>
    ensures { option_map (λ w. w.now) result ≡ last_word text.now }
{
    if text.len() != 0 && word_len(text) == text.len() {
        Some(text)
    } else {
        None
    }
}

/// What stands after that word, if the text begins with it.
#[tactic(auto, unfolding(crate::specs::Fields::after_word))]
fn after_word<'a>(word: &[u8], text: &'a [u8]) -> Option<&'a [u8]>
    ensures { option_map (λ rest. rest.now) result ≡ after_word word.now text.now }
{
    let (first, rest) = first_word(text)?;
    if first == word {
        return Some(rest);
    }
    None
}

fn kind_named(word: &[u8]) -> Option<Kind>
    ensures { result ≡ kind_named word.now }
{
    if word == b"program".as_slice() {
        return Some(Kind::Program);
    }
    if word == b"event".as_slice() {
        return Some(Kind::Event);
    }
    if word == b"ven".as_slice() {
        return Some(Kind::Ven);
    }
    if word == b"resource".as_slice() {
        return Some(Kind::Resource);
    }
    None
}

fn verb_named(word: &[u8]) -> Option<Verb>
    ensures { result ≡ verb_named word.now }
{
    if word == b"create".as_slice() {
        return Some(Verb::Create);
    }
    if word == b"change".as_slice() {
        return Some(Verb::Change);
    }
    None
}

/// The words that a line which edits begins with.
#[tactic(auto, unfolding(crate::specs::Fields::edit_line))]
fn edit_line(line: &[u8]) -> Option<EditLine<'_>>
    ensures { option_map edit_view result ≡ edit_line line.now }
{
    let rest = after_word(b"edit", line)?;
    let (moment, rest) = first_word(rest)?;
    let (verb, rest) = first_word(rest)?;
    let (kind, rest) = first_word(rest)?;
    let kind = kind_named(kind)?;
    Some(EditLine {
        moment,
        verb,
        kind,
        rest,
    })
}

/// The parts of a line that creates or changes.
#[tactic(auto, unfolding(crate::specs::Fields::write_line))]
pub(crate) fn write_line(line: &[u8]) -> Option<WriteLine<'_>>
    ensures { option_map write_view result ≡ write_line line.now }
{
    let edit = edit_line(line)?;
    let verb = verb_named(edit.verb)?;
    let (id, body) = first_word(edit.rest)?;
    Some(WriteLine {
        moment: edit.moment,
        verb,
        kind: edit.kind,
        id,
        body,
    })
}

/// The parts of a line that deletes.
#[tactic(auto, unfolding(crate::specs::Fields::delete_line))]
pub(crate) fn delete_line(line: &[u8]) -> Option<DeleteLine<'_>>
    ensures { option_map delete_view result ≡ delete_line line.now }
{
    let edit = edit_line(line)?;
    let id = last_word(edit.rest)?;
    if edit.verb == b"delete".as_slice() {
        return Some(DeleteLine {
            moment: edit.moment,
            kind: edit.kind,
            id,
        });
    }
    None
}

/// The parts of a line that asks what governs.
#[tactic(auto, unfolding(crate::specs::Fields::at_line))]
pub(crate) fn at_line(line: &[u8]) -> Option<AtLine<'_>>
    ensures { option_map at_view result ≡ at_line line.now }
{
    let rest = after_word(b"at", line)?;
    let (resource, rest) = first_word(rest)?;
    let (payload_type, rest) = first_word(rest)?;
    let moment = last_word(rest)?;
    Some(AtLine {
        resource,
        payload_type,
        moment,
    })
}

/// The parts of a line that asks for segments.
#[tactic(auto, unfolding(crate::specs::Fields::list_line))]
pub(crate) fn list_line(line: &[u8]) -> Option<ListLine<'_>>
    ensures { option_map list_view result ≡ list_line line.now }
{
    let rest = after_word(b"list", line)?;
    let (resource, rest) = first_word(rest)?;
    let (payload_type, rest) = first_word(rest)?;
    let (from, rest) = first_word(rest)?;
    let to = last_word(rest)?;
    Some(ListLine {
        resource,
        payload_type,
        from,
        to,
    })
}

/// The parts of a line that asks for the state of each resource.
#[tactic(auto, unfolding(crate::specs::Fields::roll_line))]
pub(crate) fn roll_line(line: &[u8]) -> Option<RollLine<'_>>
    ensures { option_map roll_view result ≡ roll_line line.now }
{
    let rest = after_word(b"roll", line)?;
    let (payload_type, rest) = first_word(rest)?;
    let moment = last_word(rest)?;
    Some(RollLine {
        payload_type,
        moment,
    })
}

/// The resource of a line that asks for its payload types.
#[tactic(auto, unfolding(crate::specs::Fields::types_line))]
pub(crate) fn types_line(line: &[u8]) -> Option<&[u8]>
    ensures { option_map (λ w. w.now) result ≡ types_line line.now }
{
    last_word(after_word(b"types", line)?)
}
