//! One item of a rule's text.

ghost use Rattle.std.specs.Prelude.{◌≡◌, ◌+◌, ◌≤◌, ◌<◌, length, count_by, nat_lt, insert, IfErr, IfOk, OnOk};
ghost use Rattle.atspi_match.specs.declared.item.ItemFault.TheVariants.{NoMemory};
ghost use Rattle.atspi_match.specs.Conditions.{IsRule, rank, has_rank};
ghost use Rattle.atspi_match.specs.inner.Keys.{IsKey, has_rival, key_refusal};
ghost use Rattle.atspi_match.specs.inner.Items as items;
ghost use Rattle.atspi_match.specs.inner.Items.{ReadsItem, ReadsValue, RefusesItem, RefusesValue};

use crate::Condition;
use crate::key::{Key, read_key};
use crate::runs::{count_blanks, count_word};
use crate::value::{ValueFault, read_value};
use crate::value_of_key::read_condition;
use atspi_base::valid_names::NameFault;
use std::alloc::{AllocFailed, Global};

/// A condition, and how many bytes of the text are its item.
#[derive(Drop)]
pub(crate) struct ItemRead {
    pub condition: Condition,
    pub len: usize,
}

/// Why bytes are no item, with the place among these bytes.
#[derive(Clone, Copy)]
pub(crate) enum ItemFault {
    Bad { place: usize, reason: u8 },
    NoMemory,
}

impl<T: Drop> From<AllocFailed<T>> for ItemFault {
    ghost from_gives = { λ _ e. e ≡ NoMemory };

    fn from(_: AllocFailed<T>) -> ItemFault {
        ItemFault::NoMemory
    }
}

/// Whether there is a condition on the key at this place among the keys.
pub(crate) fn has_rank(rank: u16, conditions: &[Condition]) -> bool
    ensures { result ≡ has_rank rank conditions.now }
{
    conditions.iter().any(|c| c.rank() == rank)
}

/// How many conditions stand before the key at this place among the keys.
fn count_before(bound: u16, conditions: &[Condition]) -> usize
    ensures count { result ≡ count_by (λ c. nat_lt (rank c) bound) conditions.now }
    ensures within { result ≤ length conditions.now }
{
    conditions.iter().filter(|c| c.rank() < bound).count()
}

/// Puts the condition at its place among the others, which are in the order of their keys.
pub(crate) fn put(conditions: &mut Vec<Condition>, condition: Condition) -> Result<(), ItemFault>
    ensures ok { OnOk result
        (conditions.new.items
        ≡ insert conditions.old.items (count_by (λ c. nat_lt (rank c) (rank condition)) conditions.old.items)
        condition) }
    ensures err { IfErr result (λ e. e ≡ NoMemory) }
{
    let slot = count_before(condition.rank(), conditions);
    conditions.insert(slot, condition)?;
    Ok(())
}

/// Whether the other of `path` and `path_namespace` stands among the conditions.
fn has_rival(key: Key, conditions: &[Condition]) -> bool
    ensures { result ≡ has_rival key conditions.now }
{
    match key {
        Key::Path => has_rank(5, conditions),
        Key::PathNamespace => has_rank(4, conditions),
        _ => false,
    }
}

/// Why the key may not come behind the conditions.
fn refuses(key: Key, conditions: &[Condition]) -> Option<u8>
    ensures { result ≡ key_refusal key conditions.now }
{
    if has_rank(key.rank(), conditions) {
        Some(3)
    } else if has_rival(key, conditions) {
        Some(7)
    } else {
        None
    }
}

/// The reason of a value that the key may not have.
fn value_reason(key: Key) -> u8
    ensures { result ≡ items.value_reason key }
{
    match key {
        Key::Kind => 5,
        _ => 6,
    }
}

/// The condition on the key with the value that the bytes spell. The bytes stand `at` bytes behind the item's start.
fn read_value_of(alloc: Global, key: Key, bytes: &[u8], at: usize) -> Result<ItemRead, ItemFault>
    requires key { IsKey key }
    requires small { at + length bytes.now < 18446744073709551616 }
    ensures ok { IfOk result (λ item. ReadsValue key bytes.now at item) }
    ensures bad { IfErr result (λ e. RefusesValue e key bytes.now at) }
{
    let spelled = match read_value(alloc, bytes) {
        Ok(spelled) => spelled,
        Err(ValueFault::NotClosed(place)) => {
            return Err(ItemFault::Bad {
                place: at + place,
                reason: 4,
            });
        }
        Err(ValueFault::NoMemory) => return Err(ItemFault::NoMemory),
    };
    match read_condition(alloc, key, &spelled.value) {
        Ok(condition) => Ok(ItemRead {
            condition,
            len: at + spelled.len,
        }),
        Err(NameFault::Form) => Err(ItemFault::Bad {
            place: at,
            reason: value_reason(key),
        }),
        Err(NameFault::NoMemory) => Err(ItemFault::NoMemory),
    }
}

/// The first item of the bytes, which stand behind items with these conditions.
pub(crate) fn read_item(
    alloc: Global,
    bytes: &[u8],
    conditions: &[Condition],
) -> Result<ItemRead, ItemFault>
    requires some { 0 < length bytes.now }
    requires rule { IsRule conditions.now }
    ensures ok { IfOk result (λ item. ReadsItem bytes.now conditions.now item) }
    ensures bad { IfErr result (λ e. RefusesItem e bytes.now conditions.now) }
{
    let place = count_blanks(bytes);
    let rest = &bytes[place..];
    let word = count_word(rest);
    if word == rest.len() || rest[word] != b'=' {
        return Err(ItemFault::Bad { place, reason: 1 });
    }
    let Some(key) = read_key(&rest[..word]) else {
        return Err(ItemFault::Bad { place, reason: 2 });
    };
    if let Some(reason) = refuses(key, conditions) {
        return Err(ItemFault::Bad { place, reason });
    }
    read_value_of(alloc, key, &rest[word + 1..], place + word + 1)
}
