//! What is told of the contents of nodes by the tree and the faces that keep them: which children are selected, the
//! cells of a table, and the names of actions.

mod actions;
mod cells;
mod selected;
mod values;

pub use actions::{action_count, action_list, action_name, known_actions};
pub use cells::{
    cell_at, cell_index, cells_of, column_count, column_of, is_row_selected, row_count, row_of,
    selected_rows,
};
pub use selected::{
    are_selected, is_selected, is_selected_there, nth_selected, selected_child, selected_count,
};
pub use values::{count, empty, place_of};
