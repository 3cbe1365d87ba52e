//! Inputs as worked out by hand.

use crate::running::comes_to;
use std::test::*;

/// Points, extents and a point inside.
#[test]
fn points(rt: HostRuntime) {
    let input =
        "app \"T\"\ninsert 0 0 panel \"P\"\ninsert 1 0 push-button \"A\"\ninsert 1 1 push-button \"B\"\n\
place 0 0 0 100 100\nplace 1 10 10 50 50\nplace 2 10 10 30 30\nplace 3 20 20 30 30\n\
point 0 25 25\npoint 0 15 15\npoint 0 59 59\npoint 0 100 0\nextents 3\ninside 2 40 40\n";
    let text =
        "return l 1 1 reply=1 destination=:1.0 signature=(so) [(\":1.1\" \"/org/a11y/atspi/accessible/3\")]\n\
return l 1 2 reply=2 destination=:1.0 signature=(so) [(\":1.1\" \"/org/a11y/atspi/accessible/2\")]\n\
return l 1 3 reply=3 destination=:1.0 signature=(so) [(\":1.1\" \"/org/a11y/atspi/accessible/1\")]\n\
return l 1 4 reply=4 destination=:1.0 signature=(so) [(\":1.1\" \"/org/a11y/atspi/null\")]\n\
return l 1 5 reply=5 destination=:1.0 signature=(iiii) [(20 20 30 30)]\n\
return l 1 6 reply=6 destination=:1.0 signature=b [false]\n";
    assert!(rt; comes_to(rt.alloc(), input, 0, text));
}

/// Cells and relations, and a cell that is none.
#[test]
fn cells(rt: HostRuntime) {
    let input =
        "app \"T\"\ninsert 0 0 table \"F\" columns 2\ninsert 1 0 table-cell \"c\"\ninsert 1 1 table-cell \"c\"\n\
insert 1 2 table-cell \"c\"\ninsert 1 3 table-cell \"c\"\ncell 1 1 down\ncell 1 1 right\nrelate 1 2 3\n\
follow 1 2\nfollow 1 4\ncell 1 4 up\n";
    let text = "cell 5\ncell none\nfollow 3\nfollow none\nrefused 12 BadIndex\n";
    assert!(rt; comes_to(rt.alloc(), input, 1, text));
}

/// An input without lines writes nothing; comments and empty lines do nothing, also before the start.
#[test]
fn nothing(rt: HostRuntime) {
    let alloc = rt.alloc();
    assert!(rt; comes_to(alloc, "", 0, ""));
    assert!(rt; comes_to(alloc, "# app\n\n", 0, ""));
    assert!(rt; comes_to(alloc, "\napp \"T\"\n# \u{e9}\n\n", 0, ""));
}

/// A removal takes the rectangles of what is below it too: a new node has none, and what stayed has its own.
#[test]
fn a_removal_takes_rectangles(rt: HostRuntime) {
    let input =
        "# first\n\napp \"T\"\ninsert 0 0 panel \"\"\ninsert 1 0 label \"\"\ninsert 0 1 label \"\"\n\
place 1 1 2 3 4\nplace 2 1 2 3 4\nplace 3 5 6 7 8\nremove 1\nextents 1\nextents 2\nextents 3\nextents 0\n\
inside 0 -2147483648 2147483647";
    let text =
        "error l 1 1 error=org.freedesktop.DBus.Error.UnknownObject reply=1 destination=:1.0 signature=s [\"UnknownObject\"]\n\
error l 1 2 error=org.freedesktop.DBus.Error.UnknownObject reply=2 destination=:1.0 signature=s [\"UnknownObject\"]\n\
return l 1 3 reply=3 destination=:1.0 signature=(iiii) [(5 6 7 8)]\n\
return l 1 4 reply=4 destination=:1.0 signature=(iiii) [(0 0 0 0)]\n\
return l 1 5 reply=5 destination=:1.0 signature=b [false]\n";
    assert!(rt; comes_to(rt.alloc(), input, 0, text));
}

/// A node that is hidden is at no point; whether a point is inside asks for the rectangle alone.
#[test]
fn hidden_nodes(rt: HostRuntime) {
    let input =
        "app \"T\"\nplace 0 -5 -5 10 10\npoint 0 0 0\nstate 0 showing off\npoint 0 0 0\ninside 0 0 0\n";
    let text =
        "return l 1 1 reply=1 destination=:1.0 signature=(so) [(\":1.1\" \"/org/a11y/atspi/accessible/root\")]\n\
return l 1 2 reply=2 destination=:1.0 signature=(so) [(\":1.1\" \"/org/a11y/atspi/null\")]\n\
return l 1 3 reply=3 destination=:1.0 signature=b [true]\n";
    assert!(rt; comes_to(rt.alloc(), input, 0, text));
}
