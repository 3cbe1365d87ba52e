//! Sets of states, each state by its bit, and lists of children in which one number is moved.

ghost use Rattle.std.specs.Prelude.{◌≡◌, ◌<◌, ◌≤◌, length, insert, true, vec_len, vec_capacity};
ghost use Rattle.atspi_tree_model.specs.Edits.{is_among};
ghost use Rattle.atspi_tree_model.specs.Map.{times};
ghost use Rattle.atspi_tree_model.specs.States.{with_state};
ghost use Rattle.atspi_tree.specs.Table.{all_but};

/// The set with a state, or without it.
pub(crate) fn with_state(states: u64, state: u8, on: bool) -> u64
    requires { state < 44 }
    ensures { result ≡ with_state state on states }
{
    let bit = 1u64 << state;
    if on {
        states | bit
    } else {
        states & (u64::MAX - bit)
    }
}

/// Takes out a number.
pub(crate) fn drop_child(children: &mut Vec<u32>, node: u32)
    ensures items { children.new.items ≡ all_but node children.old.items }
    ensures len { vec_len children.new ≡ length (all_but node children.old.items) }
    ensures capacity { vec_capacity children.new ≡ vec_capacity children.old }
{
    children.retain(|child| *child != node);
}

/// Takes out a number that stands there once at most. The last one is taken without a search.
pub(crate) fn unlist(children: &mut Vec<u32>, node: u32)
    requires { times node children.old.items ≤ 1 }
    ensures { children.new.items ≡ all_but node children.old.items }
{
    match children.last() {
        Some(last) if *last == node => {
            children.pop();
        }
        _ => drop_child(children, node),
    }
}

/// Takes out a number and puts it at an index among the others.
pub(crate) fn shift(children: &mut Vec<u32>, index: usize, node: u32)
    requires there { is_among node children.old.items ≡ true }
    requires in_range { index ≤ length (all_but node children.old.items) }
    ensures { children.new.items ≡ insert (all_but node children.old.items) index node }
{
    drop_child(children, node);
    match children.insert(index, node) {
        Ok(()) => {}
        Err(_) => unreachable!(),
    }
}
