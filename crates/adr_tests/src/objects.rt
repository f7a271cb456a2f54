//! Objects and edits, and copies of them.
use crate::rows::{Spelled, check};
use adr_object::Object;
use adr_test_values::bodies::{edit, kind_of, object, word};
use adr_test_values::same::Same;
use adr_value::Refusal;
use std::alloc::Global;
use std::test::Fail;

/// Whether the value and its copy are equal.
fn is_same<T: Same + Drop>(value: &T, copy: Result<T, Refusal>) -> Result<bool, Refusal> {
    let copy = copy?;
    let is_same = value.same(&copy);
    drop(copy);
    Ok(is_same)
}

/// Whether a copy of the object, in memory of its own, is equal.
fn is_copied(object: &Object) -> Result<bool, Refusal> {
    match object {
        Object::Program(program) => is_same(program.get(), program.get().copy()),
        Object::Event(event) => is_same(event.get(), event.get().copy()),
        Object::Ven(ven) => is_same(ven.get(), ven.get().copy()),
        Object::Resource(resource) => is_same(resource.get(), resource.get().copy()),
    }
}

/// Whether the object of a line has its kind and id, and a copy of it is equal.
pub(crate) fn is_read_whole(alloc: Global, line: &str) -> Result<bool, Refusal> {
    let (kind, after_kind) = word(line)?;
    let (id, _) = word(after_kind)?;
    let object = object(alloc, line)?;
    let is_named = object.id().text() == id && object.kind() == kind_of(kind);
    let is_copied = is_copied(&object);
    drop(object);
    Ok(is_named && is_copied?)
}

/// Lines of objects.
const OBJECTS: &str = r#"program p1 {"programName":"P"}
ven v1 {"venName":"V"}
resource r1 {"resourceName":"R","venID":"v1"}
resource r2 {"resourceName":"Q","venID":"v1"}
event e1 {"programID":"p1","intervals":[{"id":0,"intervalPeriod":{"start":"2024-01-01T00:00:00Z","duration":"PT2H"},"payloads":[{"type":"PRICE","values":[10]},{"type":"X_LOAD","values":["a b",true,{"x":1,"y":2.50}]}]}],"targets":[{"type":"RESOURCE_NAME","values":["R"]}]}
program p1 {"programName":"P","targets":[{"type":"GROUP","values":[true]}]}
event e1 {"programID":"p1","eventName":"N","priority":3,"targets":[{"type":"GROUP","values":[true]}],"intervalPeriod":{"start":"1970-01-01T00Z","duration":"PT2H","randomizeStart":"PT5M"},"intervals":[{"id":7,"intervalPeriod":{"start":"1970-01-01T00Z","duration":"PT2H","randomizeStart":"PT5M"},"payloads":[{"type":"X_LOAD","values":["a b"]}]}]}
ven v1 {"venName":"V","targets":[{"type":"GROUP","values":[true]}]}
resource r1 {"resourceName":"R","venID":"v1","targets":[{"type":"GROUP","values":[true]}]}"#;

#[test]
fn objects_are_copied(rt: HostRuntime) -> Result<(), Fail> {
    check(rt.alloc(), Spelled::Object, OBJECTS)
}

/// Whether a copy of the edit of a line is equal.
pub(crate) fn is_read_edit_copied(alloc: Global, line: &str) -> Result<bool, Refusal> {
    let edit = edit(alloc, line)?;
    let is_copied = is_same(&edit, edit.copy());
    drop(edit);
    is_copied
}

/// Lines of edits.
const EDITS: &str = r#"create program p1 {"programName":"P"}
create ven v1 {"venName":"V"}
create resource r1 {"resourceName":"R","venID":"v1"}
create event e1 {"programID":"p1","intervals":[{"id":0,"intervalPeriod":{"start":"2024-01-01T00:00:00Z","duration":"PT2H"},"payloads":[{"type":"PRICE","values":[10]},{"type":"X_LOAD","values":["a b",true,{"x":1,"y":2.50}]}]}],"targets":[{"type":"RESOURCE_NAME","values":["R"]}]}
change ven v1 {"venName":"V","targets":[{"type":"GROUP","values":[true]}]}
delete resource r1 {}"#;

#[test]
fn edits_are_copied(rt: HostRuntime) -> Result<(), Fail> {
    check(rt.alloc(), Spelled::Edit, EDITS)
}
