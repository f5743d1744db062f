//! The members of an object.

ghost use Rattle.std.specs.Prelude.{◌≡◌, map, Some, None};
ghost use Rattle.std.specs.List.{list_any};
ghost use Rattle.std.specs.Str.{bytes_eq};
ghost use Rattle.json.specs.Find.{get};
ghost use Rattle.json.specs.Value.{value_view, members_view};
ghost use Rattle.json_lines.specs.Names.{name_of};
ghost use Rattle.json_lines.specs.Values.{Reads, has_member, are_among, has_only, if_so};

use crate::cause::Cause;
use crate::key_form::put_key_form;
use crate::member::Member;
use crate::place::LinePlace;
use crate::refusal::LineRefusal;
use json::Value;
use std::alloc::{AllocError, Global};

// The most bytes of a name that a refusal shows.
const MAX_SHOWN: usize = 64;

/// Looks that the value is an object, that each member has one of the names, and that no two have
/// the same.
#[tactic(auto, using(crate::proofs::Objects::view_object))]
pub fn check_members(
    alloc: Global,
    value: &Value<'_>,
    names: &[Member],
    place: LinePlace,
) -> Result<(), LineRefusal>
    ensures reads { Reads (λ done. done) result
        (if_so (has_only (map name_of names.now) (value_view value.now))) }
{
    match value {
        Value::Object(members) => check_names(alloc, members, names, place),
        _ => Err(LineRefusal::new(place, Cause::NotObject)),
    }
}

fn check_names(
    alloc: Global,
    members: &[(&str, Value<'_>)],
    names: &[Member],
    place: LinePlace,
) -> Result<(), LineRefusal>
    ensures reads { Reads (λ done. done) result
        (if_so (are_among (map name_of names.now) (members_view members.now))) }
{
    for index in 0..members.len() {
        let name = members[index].0;
        if !is_one_of(name, names) {
            let name = shown(alloc, name)?;
            return Err(LineRefusal::new(place, Cause::Unknown(name)));
        }
        if is_member(name, &members[index + 1..]) {
            let name = shown(alloc, name)?;
            return Err(LineRefusal::new(place, Cause::Doubled(name)));
        }
    }
    Ok(())
}

fn is_one_of(name: &str, names: &[Member]) -> bool
    ensures exact { result ≡ list_any (bytes_eq name.now) (map name_of names.now) }
{
    for member in names {
        if name == member.name() {
            return true;
        }
    }
    false
}

fn is_member(name: &str, members: &[(&str, Value<'_>)]) -> bool
    ensures exact { result ≡ has_member name.now (members_view members.now) }
{
    for member in members {
        if member.0 == name {
            return true;
        }
    }
    false
}

// Returns a name as keys are printed, cut after n bytes.
fn shown(alloc: Global, name: &str) -> Result<String, AllocError> {
    let bytes = name.as_bytes();
    let front = &bytes[..bytes.len().min(MAX_SHOWN)];
    let mut form = Vec::new(alloc);
    put_key_form(&mut form, front)?;
    let mut text = String::new(alloc);
    for byte in &form {
        text.push(char::from(*byte))?;
    }
    Ok(text)
}

/// Returns the value of a member, which has to be there. The place is that of the member.
pub fn required<'v, 'a>(
    value: &'v Value<'a>,
    member: Member,
    place: LinePlace,
) -> Result<&'v Value<'a>, LineRefusal>
    ensures reads { Reads (λ found. value_view found.now) result
        (get (name_of member) (value_view value.now)) }
{
    match value.get(member.name()) {
        Some(found) => Ok(found),
        None => Err(LineRefusal::new(place, Cause::Missing)),
    }
}
