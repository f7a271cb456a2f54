//! The members of an object, one after the other, each read by its name.
ghost use Rattle.std.specs.Prelude.{◌≡◌, ◌∷◌, ◌++◌, ◌||◌, [], List, ℕ, ℤ, pos, Option, Some, None, false, true, option_map, unwrap_or, MatchOption, OnOk, IfOk, IfErr, IfSome};
ghost use Rattle.std.specs.Str.{bytes_eq};
ghost use Rattle.serde_json.specs.Data.{Data, null, Members as DataMembers, object, no_members, put};
ghost use Rattle.json.specs.Json.{members, value, read_key};
ghost use Rattle.serde_json.specs.Find.{as_object};
ghost use Rattle.serde_json.specs.Read.{of_members, converted};
ghost use Rattle.adr_refusal.specs.Faults.{Gives};
ghost use Rattle.adr_read.specs.Coming.{coming, Tells};
ghost use Rattle.adr_read.specs.Looking.{present, member_at};
ghost use Rattle.adr_read.specs.Sets.{required, optional};
ghost use Rattle.adr_read.specs.Names.{member_text};
ghost use Rattle.adr_read.specs.Tokens.{token_of, IsSound};
ghost use Rattle.adr_read.specs.Members.{Holds, is_among, are_apart};
ghost use Rattle.adr_read.specs.declared.from_value.Context.{Context};

use crate::from_value::{Context, Read};
use crate::name::MemberName;
use crate::skip::skip;
use crate::tokens::{Token, Tokens};
use adr_time::Moment;
use adr_value::Refusal;
use std::alloc::Global;

/// A member of an object, known by its name: nothing where it is absent or null, else what its last value is read as.
#[derive(Drop)]
pub(crate) struct Member<T: Drop> {
    name: MemberName,
    value: Option<Result<T, Refusal>>,
}

impl<T: Read> Member<T> {
    /// A member that was not met yet.
    pub(crate) fn named(name: MemberName) -> Member<T>
        ensures name { result.name ≡ name }
        ensures value { result.value ≡ None }
    {
        Member { name, value: None }
    }

    /// What the member is read as, which has to be there.
    pub(crate) fn required(self) -> Result<T, Refusal>
        ensures { (c : Context) (o : Option Data) → Holds T.faults (T.stands_for c) self.value o
            → Gives result (required T.faults o) (T.stands_for c (unwrap_or o null)) }
    {
        match self.value {
            Some(value) => value,
            None => Err(Refusal::Missing),
        }
    }

    /// What the member is read as, where it is there.
    pub(crate) fn optional(self) -> Result<Option<T>, Refusal>
        ensures { (c : Context) (o : Option Data) → Holds T.faults (T.stands_for c) self.value o
            → Gives result (optional T.faults o) (option_map (T.stands_for c) o) }
    {
        match self.value {
            Some(value) => Ok(Some(value?)),
            None => Ok(None),
        }
    }
}

/// Members of an object, each known by its name, no two of one name.
pub(crate) trait Members: Sized + Drop {
    ghost names: { Self → List (List ℕ) };

    /// They are what that object has, in an edit at that moment.
    ghost are_of: { ℤ → Self → Data → Type 0 };

    /// Members of the names of these, none of which was met yet.
    fn anew(&self) -> Self
        ensures names { names result ≡ names self.now }
        ensures fresh { (moment : ℤ) → are_of moment result (object no_members) };

    /// Whether one of them has that name.
    fn have(&self, name: &str) -> bool
        ensures { result ≡ is_among name.now (names self.now) };

    /// Reads the value that begins with the token as the member of that name, in place of an earlier one. The value of
    /// a member that isn't one of these is passed over.
    fn read(
        &mut self,
        alloc: Global,
        moment: Moment,
        depth: usize,
        reader: &mut Tokens<'_>,
        name: &str,
        token: Token<'_>,
    ) -> Result<(), Refusal>
        requires apart { are_apart (names self.old) ≡ true }
        requires sound { IsSound token }
        ensures told { Tells (coming depth (token_of token.entry ∷ reader.old)) reader.new
            (λ d _. (ms : DataMembers) → are_of moment self.old (object ms) → are_of moment self.new (object (put name.now d ms))) result }
        ensures names { names self.new ≡ names self.old };

    /// A member of another name leaves them as they are.
    ghost others: { (moment : ℤ) (x : Self) (name : List ℕ) (d : Data) (ms : DataMembers) → is_among name (names x) ≡ false
        → are_of moment x (object ms) → are_of moment x (object (put name d ms)) };
}

/// What a member's value is read as, and nothing where it is null.
fn read_value<T: Read>(
    alloc: Global,
    moment: Moment,
    depth: usize,
    reader: &mut Tokens<'_>,
    token: Token<'_>,
) -> Result<Option<Result<T, Refusal>>, Refusal>
    requires sound { IsSound token }
    ensures { Tells (coming depth (token_of token.entry ∷ reader.old)) reader.new
        (λ d value. Holds T.faults (T.stands_for (record { moment = moment; place = pos 0 })) value (present (Some d))) result }
{
    if let Token::Null = token {
        return Ok(None);
    }
    Ok(Some(T::read(alloc, &Context::at(moment), depth, reader, token)?))
}

impl<T: Read> Members for Member<T> {
    ghost use Rattle.adr_read.specs.Gathering.{kept};

    ghost names = { λ x. member_text x.name ∷ [] };

    ghost are_of = { λ moment x d. Holds T.faults (T.stands_for (record { moment = moment; place = pos 0 })) x.value (member_at (member_text x.name) d) };

    fn anew(&self) -> Member<T> {
        Member::named(self.name)
    }

    fn have(&self, name: &str) -> bool {
        name == self.name.text()
    }

    fn read(
        &mut self,
        alloc: Global,
        moment: Moment,
        depth: usize,
        reader: &mut Tokens<'_>,
        name: &str,
        token: Token<'_>,
    ) -> Result<(), Refusal> {
        if name != self.name.text() {
            return skip(alloc, depth, reader, token);
        }
        self.value = read_value(alloc, moment, depth, reader, token)?;
        Ok(())
    }

    ghost others = { λ moment x name d ms. kept T.faults (T.stands_for (record { moment = moment; place = pos 0 })) x.value (member_text x.name) name d ms };
}

impl<A: Members, B: Members> Members for (A, B) {
    ghost use Rattle.adr_read.specs.Gathering.{among_both};

    ghost names = { λ x. A.names x.0 ++ B.names x.1 };

    ghost are_of = { λ moment x d. A.are_of moment x.0 d × B.are_of moment x.1 d };

    fn anew(&self) -> (A, B) {
        (self.0.anew(), self.1.anew())
    }

    fn have(&self, name: &str) -> bool {
        self.0.have(name) || self.1.have(name)
    }

    fn read(
        &mut self,
        alloc: Global,
        moment: Moment,
        depth: usize,
        reader: &mut Tokens<'_>,
        name: &str,
        token: Token<'_>,
    ) -> Result<(), Refusal> {
        if self.0.have(name) {
            self.0.read(alloc, moment, depth, reader, name, token)
        } else {
            self.1.read(alloc, moment, depth, reader, name, token)
        }
    }

    ghost others = { λ moment x name d ms none are.
        let apart = among_both name (A.names x.0) (B.names x.1) none in
        (A.others moment x.0 name d ms apart.0 are.0, B.others moment x.1 name d ms apart.1 are.1) };
}

/// The name of the next member and the token that its value begins with, or nothing at the object's end.
fn next_member<'a>(reader: &mut Tokens<'a>) -> Result<Option<(&'a str, Token<'a>)>, Refusal>
    ensures found { IfOk result (λ r. MatchOption r (read_key reader.old ≡ Some (None, reader.new))
        (λ m. read_key reader.old ≡ Some (Some m.0.now, token_of m.1 ∷ reader.new))) }
    ensures sound { IfOk result (λ r. IfSome r (λ m. IsSound m.1)) }
    ensures bad { IfErr result (λ f. (f ≡ Refusal.BadJson) × ((depth n : ℕ) (found : DataMembers)
        → converted (λ ms. of_members ms found) (members (value depth) n reader.old) ≡ None)) }
{
    let Ok(name) = reader.next_key() else {
        return Err(Refusal::BadJson);
    };
    let Some(name) = name else {
        return Ok(None);
    };
    match reader.next() {
        Some(token) => Ok(Some((name, token))),
        None => Err(Refusal::BadJson),
    }
}

/// The members of an object, and nothing of another value, which is passed over.
pub(crate) fn read_members<M: Members>(
    alloc: Global,
    moment: Moment,
    depth: usize,
    reader: &mut Tokens<'_>,
    token: Token<'_>,
    mut members: M,
) -> Result<Option<M>, Refusal>
    requires sound { IsSound token }
    requires apart { are_apart (M.names members) ≡ true }
    requires fresh { M.are_of moment members (object no_members) }
    ensures told { Tells (coming depth (token_of token.entry ∷ reader.old)) reader.new
        (λ d r. MatchOption r (as_object d ≡ None) (λ m. (ms : DataMembers) × (d ≡ object ms) × M.are_of moment m d)) result }
    ensures names { IfOk result (λ r. IfSome r (λ m. M.names m ≡ M.names members)) }
{
    let Token::BeginObject = token else {
        skip(alloc, depth, reader, token)?;
        return Ok(None);
    };
    if depth == 0 {
        return Err(Refusal::BadJson);
    }
    'members: while let Some((name, token)) = next_member(reader)? {
        members.read(alloc, moment, depth - 1, reader, name, token)?;
    }
    Ok(Some(members))
}
