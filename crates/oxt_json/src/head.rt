//! What a node has before its fields.
ghost use Rattle.std.specs.Prelude.{◌≡◌, IfOk, IfErr, IfSome, option_map, Ok};
ghost use Rattle.std.specs.List.{IsAmong};
ghost use Rattle.std.specs.Str.{bytes_eq};
ghost use Rattle.json.specs.Value.{value_view, members_view};
ghost use Rattle.serde_json.specs.Find.{get_member};
ghost use Rattle.oxt_json.specs.Data.{data_of, members_data};
ghost use Rattle.oxt_json.specs.Leaves.{kind_at, offset_at};
ghost use Rattle.oxt_json.specs.Misreads.{IsCause};
ghost use Rattle.oxt_json.specs.Reading.{head_as};

use crate::misread::Misread;
use crate::number::whole;
use json::Value;
use oxt_grammar::category::Category;
use oxt_grammar::kind::Kind;
use oxt_names::ids::Span;
use std::alloc::Global;

/// What a node is and where it stands in the source text.
#[derive(Clone, Copy)]
pub struct Head {
    pub kind: Kind,
    pub span: Span,
}

impl Head {
    ghost use Rattle.oxt_json.specs.Heads.{head_view};

    /// Reads the head of a node of a category.
    ///
    /// # Errors
    /// The first of `type`, `start` and `end` that is wrong.
    pub fn read<'a>(
        alloc: Global,
        members: &[(&'a str, Value<'a>)],
        category: Category,
    ) -> Result<Head, Misread>
        ensures read { IfOk result (λ head. head_as category (members_data (members_view members.now))
            ≡ Ok (head_view head)) }
        ensures wrong { IfErr result
            (IsCause (head_as category (members_data (members_view members.now)))) }
    {
        let Some(kind) = kind_in(member(members, "type"), category) else {
            return Err(Misread::at(alloc, "type"));
        };
        let Some(start) = offset_in(member(members, "start")) else {
            return Err(Misread::at(alloc, "start"));
        };
        let Some(end) = offset_in(member(members, "end")) else {
            return Err(Misread::at(alloc, "end"));
        };
        Ok(Head {
            kind,
            span: Span { start, end },
        })
    }
}

/// The last member of an object that has the key.
#[tactic(auto, using(crate::proofs::Found::member_nowhere))]
pub fn member<'v, 'a>(
    members: &'v [(&'a str, Value<'a>)],
    key: &str,
) -> Option<&'v (&'a str, Value<'a>)>
    ensures value { option_map (λ m. data_of (value_view m.now.1)) result
        ≡ get_member key.now (members_data (members_view members.now)) }
    ensures among { IfSome result (λ m. IsAmong members.now m.now) }
{
    let mut left = members.len();
    while left > 0 {
        left -= 1;
        let member = &members[left];
        if is_key(member.0, key) {
            return Some(member);
        }
    }
    None
}

// Most keys differ in length, which is quicker to see than the bytes.
#[tactic(auto, using(crate::proofs::Found::other_length))]
fn is_key(name: &str, key: &str) -> bool
    ensures { result ≡ bytes_eq name.now key.now }
{
    if name.len() != key.len() {
        return false;
    }
    name == key
}

#[tactic(auto, using(crate::proofs::Found::text_in))]
fn kind_in<'a>(member: Option<&(&'a str, Value<'a>)>, category: Category) -> Option<Kind>
    ensures { result ≡ kind_at category (option_map (λ m. data_of (value_view m.now.1)) member.entry) }
{
    category.find(member?.1.as_str()?)
}

#[tactic(auto, using(crate::proofs::Found::number_in))]
fn offset_in<'a>(member: Option<&(&'a str, Value<'a>)>) -> Option<u32>
    ensures { result ≡ offset_at (option_map (λ m. data_of (value_view m.now.1)) member.entry) }
{
    let Some(member) = member else {
        return Some(0);
    };
    u32::try_from(whole(member.1.as_number()?)?).ok()
}
