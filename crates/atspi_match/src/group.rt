//! The groups of match rules. A rule stands in the group of one of the values that it asks for, and a message looks
//! into those groups alone that its own values name.

ghost use Rattle.std.specs.Prelude.{◌≡◌, ◌++◌, take, IfOk, OnOk, option_copied, option_to_list};
ghost use Rattle.std.specs.Option.{option_map};
ghost use Rattle.atspi_message_in_place.specs.View as view;
ghost use Rattle.atspi_message_in_place.specs.View.{envelope_at};
ghost use Rattle.atspi_match.specs.Groups as groups;
ghost use Rattle.atspi_match.specs.Groups.{mark_of};

use crate::Condition;
use crate::matching::text_argument;
use atspi_base::NoMemory;
use atspi_message_in_place::MessageRef;
use std::alloc::Global;

/// A key at which only the very value is met.
#[derive(Clone, Copy)]
pub enum GroupKey {
    BySender,
    ByInterface,
    ByMember,
    ByPath,
    ByArg0,
}

impl GroupKey {
    /// Where the number of a value at the key begins.
    fn seed(self) -> u64
        ensures { result ≡ groups.seed self }
    {
        match self {
            GroupKey::BySender => 1,
            GroupKey::ByInterface => 2,
            GroupKey::ByMember => 3,
            GroupKey::ByPath => 4,
            GroupKey::ByArg0 => 5,
        }
    }
}

/// The first bytes of a value, at most 255.
fn front(value: &[u8]) -> &[u8]
    ensures { result.now ≡ take 255 value.now }
{
    if value.len() > 255 {
        &value[..255]
    } else {
        value
    }
}

/// A number with a byte more.
fn mixed(number: u64, byte: u8) -> u64
    ensures { result ≡ groups.mixed number byte }
{
    number
        .wrapping_add(u64::from(byte))
        .wrapping_mul(6364136223846793005)
}

/// A number for a value at a key.
#[tactic(auto, unfolding(crate::specs::Groups::mark))]
fn mark(key: GroupKey, value: &[u8]) -> u64
    ensures { result ≡ groups.mark key value.now }
{
    let mut mark = key.seed();
    let front = front(value);
    for byte in front {
        mark = mixed(mark, *byte);
    }
    mark
}

/// The number of a value, if it is there.
fn value_mark(key: GroupKey, value: Option<&[u8]>) -> Option<u64>
    ensures { result ≡ option_map (groups.mark key) (option_copied value.entry) }
{
    match value {
        Some(value) => Some(mark(key, value)),
        None => None,
    }
}

/// The number of a field, if it is there.
fn field_mark(key: GroupKey, field: Option<&str>) -> Option<u64>
    ensures { result ≡ option_map (groups.mark key) (view.bytes_of field.entry) }
{
    match field {
        Some(text) => Some(mark(key, text.as_bytes())),
        None => None,
    }
}

/// The number of the value that a condition asks for, if only the very value meets it.
pub fn asked(condition: &Condition) -> Option<u64>
    ensures { result ≡ option_map mark_of (groups.asked condition.now) }
{
    match condition {
        Condition::Sender(name) => {
            if name.is_unique() {
                Some(mark(GroupKey::BySender, name.as_str().as_bytes()))
            } else {
                None
            }
        }
        Condition::Interface(name) => {
            Some(mark(GroupKey::ByInterface, name.as_str().as_bytes()))
        }
        Condition::Member(name) => Some(mark(GroupKey::ByMember, name.as_str().as_bytes())),
        Condition::Path(path) => Some(mark(GroupKey::ByPath, path.as_str().as_bytes())),
        Condition::Arg { index, text } => {
            if *index == 0 {
                Some(mark(GroupKey::ByArg0, text.as_str().as_bytes()))
            } else {
                None
            }
        }
        _ => None,
    }
}

/// Appends a group, if there is one.
fn put(groups: &mut Vec<u64>, mark: Option<u64>) -> Result<(), NoMemory>
    ensures { OnOk result (groups.new.items ≡ groups.old.items ++ option_to_list mark) }
{
    if let Some(mark) = mark {
        groups.push(mark)?;
    }
    Ok(())
}

/// The groups in which rules that match a message stand.
pub fn groups_of(alloc: Global, m: &MessageRef) -> Result<Vec<u64>, NoMemory>
    ensures { IfOk result (λ found. found.items ≡ groups.groups_of (envelope_at m.now)) }
{
    let mut groups = Vec::with_capacity(alloc, 6)?;
    groups.push(0)?;
    put(&mut groups, field_mark(GroupKey::BySender, m.sender))?;
    put(&mut groups, field_mark(GroupKey::ByInterface, m.interface))?;
    put(&mut groups, field_mark(GroupKey::ByMember, m.member))?;
    put(&mut groups, field_mark(GroupKey::ByPath, m.path))?;
    put(
        &mut groups,
        value_mark(GroupKey::ByArg0, text_argument(m, 0)),
    )?;
    Ok(groups)
}
