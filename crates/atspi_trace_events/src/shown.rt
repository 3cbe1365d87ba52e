//! What a reader shows of an application.

ghost use Rattle.std.specs.Prelude.{◌≡◌};

use atspi_base::valid_names::Path;
use atspi_tree_model::Row;
use std::marker::Model;

/// A row as a reader shows it, with its place. The root has no parent, and its index is -1.
#[derive(Drop)]
pub struct ShownRow {
    pub parent: Option<Path>,
    /// The place among the children of the parent, from 0.
    pub index: i32,
    pub row: Row,
}

/// The rows that a reader shows, in preorder.
#[derive(Drop)]
pub struct Shown {
    rows: Vec<ShownRow>,
}

impl Model for Shown {
    ghost use Rattle.std.specs.Prelude.{List};
    ghost use Rattle.atspi_trace_events.specs.declared.shown.ShownRow.{ShownRow};

    ghost Value = { List ShownRow };

    ghost view = { λ s. s.rows.items };
}

impl Shown {
    /// The rows of a `Vec`, which are not copied.
    pub fn from_vec(rows: Vec<ShownRow>) -> Shown
        ensures { result ≡ rows.items }
    {
        Shown { rows }
    }

    /// The rows as a `Vec`, not copied.
    pub fn into_vec(self) -> Vec<ShownRow>
        ensures { result.items ≡ self }
    {
        self.rows
    }

    /// The rows, in order.
    pub fn as_slice(&self) -> &[ShownRow]
        ensures { result.now ≡ self.now }
    {
        &self.rows
    }
}
