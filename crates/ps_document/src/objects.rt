// The members of an object, in the order of their names.
ghost use Rattle.std.specs.Prelude.{◌≡◌, ◌≢◌, ◌↔◌, IsTrue, IfSome, IfNone};
ghost use Rattle.serde_json.specs.Data.{Data, Members as JsonMembers, member, no_members};
ghost use Rattle.serde_json.specs.View.{members_view, view};

use serde_json::{Map, Value};

/// Whether no member is left.
pub fn has_no_members(members: &Map<String, Value>) -> bool
    ensures { IsTrue result ↔ (members_view members.now.entries ≡ no_members) }
{
    members.is_empty()
}

/// The values of the first two members, where they have the names. They are then gone.
pub fn take_two(
    members: &mut Map<String, Value>,
    first: &str,
    second: &str,
) -> Option<(Value, Value)>
    ensures some { IfSome result (λ t. members_view members.old.entries ≡ member first.now (view t.0) (member second.now (view t.1) (members_view members.new.entries))) }
    ensures none { IfNone result ((d e : Data) (rest : JsonMembers) → members_view members.old.entries ≢ member first.now d (member second.now e rest)) }
{
    let a = take_member(members, first)?;
    let b = take_member(members, second)?;
    Some((a, b))
}

/// The value of the first member, where it has the name. The member is then gone.
pub fn take_member(members: &mut Map<String, Value>, name: &str) -> Option<Value>
    ensures some { IfSome result (λ v. members_view members.old.entries ≡ member name.now (view v) (members_view members.new.entries)) }
    ensures none { IfNone result ((d : Data) (rest : JsonMembers) → members_view members.old.entries ≢ member name.now d rest) }
{
    let (key, value) = members.pop_first()?;
    if key.as_str() == name {
        Some(value)
    } else {
        None
    }
}
