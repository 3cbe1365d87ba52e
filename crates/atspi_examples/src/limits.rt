//! Limits, as numbers: each clause of other crates names them, and would read the same with any other number.

ghost use Rattle.std.specs.Prelude.{◌≡◌, [], None, Some};
ghost use Rattle.atspi_script_lines.specs.declared.limits.TheConstants.{LINE_LIMIT, APP_COUNT, READER_COUNT};
ghost use Rattle.atspi_script_lines.specs.declared.limits.TheConstants.{PLACE_LIMIT, QUOTA_LEAST, QUOTA_MOST};
ghost use Rattle.atspi_script_lines.specs.declared.line.Line.TheVariants as line;
ghost use Rattle.atspi_tree_model.specs.declared.limits.TheConstants.{NODE_LIMIT, ADDED_LIMIT, NAME_LIMIT, TEXT_LIMIT};
ghost use Rattle.atspi_tree_model.specs.declared.limits.TheConstants.{MARK_LIMIT, COLUMN_LIMIT, ACTION_LIMIT};
ghost use Rattle.atspi_tree_model.specs.declared.limits.TheConstants.{RELATION_KINDS, STATE_COUNT};
ghost use Rattle.atspi_trace.specs.Work.{no_kit, no_reader, no_spare, refused, spare_count};
ghost use Rattle.atspi_examples.specs.Limits.{apps_joined, readers_joined, swapped};

/// A line has at most 65,536 bytes; its numbers of nodes and places are at most 2 to the power of 31 less 1; a quota is
/// from 1,024 to 16,777,216 bytes.
pub fn of_lines()
    ensures bytes { LINE_LIMIT ≡ 65536 }
    ensures places { PLACE_LIMIT ≡ 2147483647 }
    ensures least_quota { QUOTA_LEAST ≡ 1024 }
    ensures most_quota { QUOTA_MOST ≡ 16777216 }
{}

/// A script starts 16 applications and four readers, and swaps 16 faces.
pub fn of_scripts()
    ensures apps { APP_COUNT ≡ 16 }
    ensures readers { READER_COUNT ≡ 4 }
    ensures spares { spare_count ≡ 16 }
    ensures another_app { refused (apps_joined 15) (line.App []) ≡ None }
    ensures all_apps { refused (apps_joined 16) (line.App []) ≡ Some no_kit }
    ensures another_reader { refused (readers_joined 3) line.Reader ≡ None }
    ensures all_readers { refused (readers_joined 4) line.Reader ≡ Some no_reader }
    ensures another_swap { refused (swapped 15) (line.Swap 0) ≡ None }
    ensures all_swaps { refused (swapped 16) (line.Swap 0) ≡ Some no_spare }
{}

/// A tree has 8,192 nodes at most, and adds fewer than 2 to the power of 32; a name has 511 bytes, a text 1,048,576
/// characters and 16 selections, a table 1,024 columns, a node eight actions; there are 18 kinds of relations and 44
/// states.
pub fn of_trees()
    ensures nodes { NODE_LIMIT ≡ 8192 }
    ensures added { ADDED_LIMIT ≡ 4294967295 }
    ensures names { NAME_LIMIT ≡ 511 }
    ensures texts { TEXT_LIMIT ≡ 1048576 }
    ensures selections { MARK_LIMIT ≡ 16 }
    ensures columns { COLUMN_LIMIT ≡ 1024 }
    ensures actions { ACTION_LIMIT ≡ 8 }
    ensures relations { RELATION_KINDS ≡ 18 }
    ensures states { STATE_COUNT ≡ 44 }
{}
