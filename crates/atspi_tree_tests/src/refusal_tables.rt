//! Each edit with each reason to refuse it, in the order in which they are looked for: an edit in the words of a
//! script, and behind ` = ` the reason, or how many steps the edit makes. Of the refused rows of an edit each has fewer
//! faults than the one before it. A `%` stands for 511 letters, as many as a name may have. Behind ` = step ` stands
//! the one step that an edit makes, as the table of steps tells it. An edit with no ` = ` is done before those of the
//! rows behind it are tried.

/// The window that the edits are of: node 1 has every interface, node 2 a text that cannot be edited, node 3 none; 2
/// and 3 stand below 1, and 4 beside it.
pub(crate) const WINDOW: &str = "\
insert 0 0 panel \"a\" text \"abc\" columns 1 select action \"toggle\" action \"expand\" action \"press\" action \"focus\" action \"jump\"; \
insert 1 0 panel \"b\" static \"abc\"; \
insert 1 1 panel \"c\"; \
insert 0 1 panel \"d\"";

/// Edits that read no contents.
pub(crate) const NODES: &str = "\
insert 9 9 panel \"%a\" columns 0 = NoNode
insert 0 3 panel \"%a\" columns 0 = BadIndex
insert 0 3 panel \"%a\" = BadIndex
insert 0 2 panel \"%a\" columns 0 = BadIndex
insert 0 2 panel \"%a\" columns 1025 = BadIndex
insert 0 2 panel \"%a\" columns 1024 = TextFull
insert 0 2 panel \"%\" columns 1024 = 1
insert 4 1 push-button \"a\" = BadIndex
insert 0 2 push-button \"%a\" = TextFull
insert 0 2 push-button \"%\" = 1
insert 3 0 push-button \"\" = 1
long 1048576 1 = 1
long 0 1024 = 1
long 1048577 1024 = TextFull
long 1048577 1025 = BadIndex
long 0 0 = BadIndex
insert 0 1 62 \"aa\" text \"t\" columns 2 select action \"press\" = step 0 5 0 1|aa
name 2 \"aa\" = step 3 2 0 0|aa
name 2 \"b\" = 0
remove 9 = NoNode
remove 0 = IsRoot
remove 1 = 1
move 9 9 9 = NoNode
move 9 1 9 = NoNode
move 0 9 9 = NoNode
move 0 1 9 = IsRoot
move 0 0 0 = IsRoot
move 1 2 9 = BadIndex
move 1 1 3 = BadIndex
move 2 1 2 = BadIndex
move 1 4 1 = BadIndex
move 1 2 0 = Cycle
move 1 1 2 = Cycle
move 1 4 0 = 1
move 1 0 1 = 1
move 1 0 0 = 0
move 3 0 2 = 1
move 2 1 1 = 1
move 2 1 0 = 0
name 9 \"%a\" = NoNode
name 1 \"%a\" = TextFull
name 1 \"%\" = 1
name 1 \"\" = 1
name 1 \"a\" = 0
describe 9 \"%a\" = NoNode
describe 1 \"%a\" = TextFull
describe 1 \"%\" = 1
describe 1 \"a\" = 1
describe 1 \"\" = 0
role 9 frame = NoNode
role 1 frame = 1
role 1 panel = 0
state 9 checked on = NoNode
state 1 checked on = 1
state 1 enabled off = 1
state 1 enabled on = 0
focus 9 = NoNode
focus 1 = 1
focus 0 = 1
select 9 9 = NoNode
select 3 9 = NoFace
select 1 2 = BadIndex
select 1 1 = 1
deselect 9 9 = NoNode
deselect 3 9 = NoFace
deselect 1 2 = BadIndex
deselect 1 1 = 0
relate 9 0 9 = NoNode
relate 9 0 1 = NoNode
relate 1 0 9 = NoNode
relate 1 0 2 = BadIndex
relate 1 19 2 = BadIndex
relate 1 18 0 = 1
relate 1 1 1 = 1
unrelate 9 0 9 = NoNode
unrelate 9 0 1 = NoNode
unrelate 1 0 9 = NoNode
unrelate 1 0 2 = BadIndex
unrelate 1 19 2 = BadIndex
unrelate 1 18 0 = 0";

/// Edits that look at states of other nodes.
pub(crate) const BESIDE_STATES: &str = "\
state 0 focused on
state 2 focused on
state 3 selected on
state 4 selected on
state 1 pressed on
focus 9 = NoNode
focus 4 = 3
focus 2 = 1
focus 0 = 1
select 9 9 = NoNode
select 2 9 = NoFace
select 1 2 = BadIndex
select 1 0 = 2
select 1 1 = 0
deselect 1 0 = 0
deselect 1 1 = 1
state 1 multiselectable on
select 1 0 = 1";

/// Edits of a text of three letters, with the caret behind the second.
pub(crate) const TEXTS: &str = "\
put 9 4 \"a\" = NoNode
put 3 4 \"a\" = NoFace
put 2 4 \"a\" = NoFace
put 1 4 \"a\" = BadOffset
put 1 3 \"a\" = 1
put 1 2 \"a\" = 1
put 1 1 \"a\" = 2
put 1 1 \"\" = 0
type 9 \"a\" = NoNode
type 2 \"a\" = NoFace
type 1 \"a\" = 2
type 1 \"\" = 0
cut 9 2 1 = NoNode
cut 2 2 1 = NoFace
cut 1 2 1 = BadOffset
cut 1 3 4 = BadOffset
cut 1 2 3 = 1
cut 1 0 1 = 2
cut 1 1 3 = 2
cut 1 1 1 = 0
caret 9 4 = NoNode
caret 3 4 = NoFace
caret 2 4 = BadOffset
caret 2 3 = 1
caret 1 2 = 0
mark 9 2 1 = NoNode
mark 3 2 1 = NoFace
mark 2 2 1 = BadOffset
mark 2 1 1 = BadOffset
mark 2 2 4 = BadOffset
mark 2 0 3 = 1
unmark 9 = NoNode
unmark 3 = NoFace
unmark 2 = 0";

/// Edits of a text that has room for one character, with the caret at its front.
pub(crate) const LONG_TEXTS: &str = "\
put 9 1048576 \"aa\" = NoNode
put 2 1048576 \"aa\" = NoFace
put 1 1048576 \"aa\" = BadOffset
put 1 1048575 \"aa\" = TextFull
put 1 1048575 \"a\" = 1
type 9 \"aa\" = NoNode
type 2 \"aa\" = NoFace
type 1 \"aa\" = TextFull
type 1 \"a\" = 2
cut 1 1048575 1048576 = BadOffset
cut 1 1048574 1048575 = 1";

/// Edits of a text that has all the selections that a text may have.
pub(crate) const MARKED_TEXTS: &str = "\
mark 9 0 1 = NoNode
mark 3 0 1 = NoFace
mark 2 0 1 = BadOffset
unmark 2 = 1";

/// Edits of a node that has the actions of the window, and of the same while it is pressed.
pub(crate) const ACTIONS: &str = "\
press 9 5 = NoNode
press 3 5 = NoFace
press 1 5 = BadIndex
press 1 0 = 1
press 1 1 = 1
press 1 2 = 2
press 1 3 = 1
press 1 4 = 0
state 0 focused on
state 2 focused on
state 3 selected on
state 4 selected on
state 1 pressed on
press 1 5 = BadIndex
press 1 2 = 1";

/// Inserts into a tree that has all the nodes that a tree may have, 8,191 of them below the root.
pub(crate) const FULL_TREE: &str = "\
insert 8192 9 panel \"%a\" columns 0 = NoNode
insert 0 8192 panel \"%a\" columns 1 = BadIndex
insert 0 8191 panel \"%a\" columns 0 = BadIndex
insert 0 8191 panel \"%a\" columns 1 = Full
insert 0 8191 panel \"e\" = Full
insert 8192 0 push-button \"a\" = NoNode
insert 0 8192 push-button \"a\" = BadIndex
insert 8191 0 push-button \"%a\" = Full";
