//! Loads, news and what is due: the rows that are kept, each with its parent, but for the root, and its index there, or
//! the line that is spoken.

/// Which rows a load keeps, whatever the items: each an object, its parent and its index. A `!` stands before an object
/// of another application. The root has no parent, and the index below zero.
pub(crate) const LOADS: &str = "\
load /r /r -1, /a /r 0, /b /r 1 = /r@-1 /a</r@0 /b</r@1
load /c /a 0, /a /r 0, /r /x -1 = /r@-1 /a</r@0 /c</a@0
load /r /r 0, /a /r 5, /b /r -2147483648, /c /r 5, /d /r 2147483647 = /r@-1 /b</r@0 /a</r@1 /c</r@2 /d</r@3
load /r /r 0, /a /r 1, /b /r 0, /a /b 0 = /r@-1 /b</r@0 /a</r@1
load /r /r 0, /a /z 0, /b /a 0 = /r@-1
load /a /r 0, /b /a 0 =
load /r /r 0, /a /b 0, /b /a 0, /c /c 0, /d /r 0 = /r@-1 /d</r@0
load /r /a 0, /a /r 0 = /r@-1 /a</r@0
load /r /r 0, !/a /r 0, /b /r 1 = /r@-1 /b</r@0
load /r /r 0, !/a /r 3, /a /r 0 = /r@-1 /a</r@0
load /r /r 0, /a !/r 0, /b /r 0 = /r@-1 /b</r@0
load /r !/x 0, /a /r 0 = /r@-1 /a</r@0
load !/r /r 0, /a /r 0 =
load /r /r 0, /a /r 0, /r /a 0 = /r@-1 /a</r@0
load /e /d 0, /d /c 0, /c /b 0, /b /a 0, /a /r 0, /f /b -1, /r /r 0 = /r@-1 /a</r@0 /b</a@0 /f</b@0 /c</b@1 /d</c@0 /e</d@0
load /a /r 4, /r /r 3 = /r@-1 /a</r@0";

/// News that change rows.
pub(crate) const CHANGES: &str = "\
after item /d /r 0 = /r@-1 /d</r@0 /a</r@1 /b</r@2 /c</r@3
after item /d /r 2 = /r@-1 /a</r@0 /b</r@1 /d</r@2 /c</r@3
after item /d /r 3 = /r@-1 /a</r@0 /b</r@1 /c</r@2 /d</r@3
after item /d /r 4 = /r@-1 /a</r@0 /b</r@1 /c</r@2 /d</r@3
after item /d /r -1 = /r@-1 /a</r@0 /b</r@1 /c</r@2 /d</r@3
after item /d /r 2147483647 = /r@-1 /a</r@0 /b</r@1 /c</r@2 /d</r@3
after item /d /r -2147483648 = /r@-1 /a</r@0 /b</r@1 /c</r@2 /d</r@3
after item /a /r 1, item /c /a 9 = /r@-1 /b</r@0 /a</r@1 /c</a@0
after item /b /a 0, item /c /b 0, item /a /c 0, item /a /a 0, item /r /c 0 = /r@-1 /a</r@0 /b</a@0 /c</b@0
after item /b /a 0, child-removed /r 0 /a, item /b /c 0 = /r@-1 /c</r@0 /b</c@0
after item /b /a 0, item /c /a 0, item /d /c 0 = /r@-1 /a</r@0 /c</a@0 /d</c@0 /b</a@1
after item /b /a 0, removed /a = /r@-1 /c</r@0
after removed /c, item /c /a 0 = /r@-1 /a</r@0 /c</a@0 /b</r@1
after child-removed /r 2 /c = /r@-1 /a</r@0 /b</r@1";

/// News that change no row's place: of other applications, of what is not known, and of a node that is not where they
/// say.
pub(crate) const NO_CHANGES: &str = "\
after item !/d /r 0 = /r@-1 /a</r@0 /b</r@1 /c</r@2
after item /d !/r 0 = /r@-1 /a</r@0 /b</r@1 /c</r@2
after item /d /e 0 = /r@-1 /a</r@0 /b</r@1 /c</r@2
after item /d /d 0 = /r@-1 /a</r@0 /b</r@1 /c</r@2
after item !/a /c 0 = /r@-1 /a</r@0 /b</r@1 /c</r@2
after item /a !/c 0 = /r@-1 /a</r@0 /b</r@1 /c</r@2
after item /a /e 0 = /r@-1 /a</r@0 /b</r@1 /c</r@2
after item !/e !/e 0 = /r@-1 /a</r@0 /b</r@1 /c</r@2
after item /r /a 0 = /r@-1 /a</r@0 /b</r@1 /c</r@2
after removed /r = /r@-1 /a</r@0 /b</r@1 /c</r@2
after removed /e = /r@-1 /a</r@0 /b</r@1 /c</r@2
after child-removed /r 1 /a = /r@-1 /a</r@0 /b</r@1 /c</r@2
after child-removed /r -1 /a = /r@-1 /a</r@0 /b</r@1 /c</r@2
after child-removed /b 0 /a = /r@-1 /a</r@0 /b</r@1 /c</r@2
after child-removed /e 0 /a = /r@-1 /a</r@0 /b</r@1 /c</r@2
after child-removed /r 0 /e = /r@-1 /a</r@0 /b</r@1 /c</r@2
after child-removed /r 0 /r = /r@-1 /a</r@0 /b</r@1 /c</r@2
after child-removed /r 2147483647 /c = /r@-1 /a</r@0 /b</r@1 /c</r@2
after child-removed /r -2147483648 /c = /r@-1 /a</r@0 /b</r@1 /c</r@2
after child-added /a = /r@-1 /a</r@0 /b</r@1 /c</r@2
after child-added /e = /r@-1 /a</r@0 /b</r@1 /c</r@2
after name /e x = /r@-1 /a</r@0 /b</r@1 /c</r@2
after description /e x = /r@-1 /a</r@0 /b</r@1 /c</r@2
after role /e = /r@-1 /a</r@0 /b</r@1 /c</r@2
after on /e 12 = /r@-1 /a</r@0 /b</r@1 /c</r@2
after inserted /e x = /r@-1 /a</r@0 /b</r@1 /c</r@2
after deleted /e x = /r@-1 /a</r@0 /b</r@1 /c</r@2
after caret /e = /r@-1 /a</r@0 /b</r@1 /c</r@2
after text-is /e x = /r@-1 /a</r@0 /b</r@1 /c</r@2
after caret-is /e = /r@-1 /a</r@0 /b</r@1 /c</r@2
after columns-is /e = /r@-1 /a</r@0 /b</r@1 /c</r@2
after nothing /e = /r@-1 /a</r@0 /b</r@1 /c</r@2";

/// News one behind another. Only a child that is not known asks for a reload. A cache speaks from the view that a news
/// makes.
pub(crate) const SPOKEN: &str = "\
load /r /r 0, /a /r 0 = /r@-1 /a</r@0
tell child-added /a = kept
tell child-added /b = reload
tell removed /a = kept
tell child-added /a = reload
load /r /r 0, /a /r 0 = /r@-1 /a</r@0
say name /a Find =
say on /a 12 = Find, check box
say name /a Seek = Seek
say name /b Seek =
say name /r Demo =
closing = Demo, closed";
