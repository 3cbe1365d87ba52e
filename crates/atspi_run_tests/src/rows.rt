//! Runs as they were worked out by hand.

/// The worked runs, one text. Of each: a line `~` with its name, a line with its words, its input, a line `=>` with the
/// status that is due, and what is due to be written.
pub const ROWS: &str = r#"~a button is inserted and renamed
replay --brief
app "Demo"
reader
turns 1000
edit a0 insert 0 0 push-button "OK"
edit a0 name 1 "Save"
show r0 a0
turns 1000
show r0 a0
=> 0
show r0 a0 1
| root - -1 application 0000000043000100 "Demo" "" - - - -
show r0 a0 2
| root - -1 application 0000000043000100 "Demo" "" - - - -
| 1 root 0 push-button 0000000043000100 "Save" "" - - - -
~an empty input
replay
=> 0
~nothing but Hello is sent before the start is over
replay
app "Demo"
edit a0 insert 0 0 push-button "OK"
edit a0 state 1 focused on
=> 0
start a0 "Demo"
sent a0 call l 0 1 path=/org/freedesktop/DBus interface=org.freedesktop.DBus member=Hello destination=org.freedesktop.DBus
step a0 add 1 0 0 push-button "OK"
step a0 state 1 focused on
~the bytes of Hello
replay --wire
app "Demo"
edit a0 insert 0 0 push-button "OK"
edit a0 state 1 focused on
=> 0
start a0 "Demo"
sent a0 call l 0 1 path=/org/freedesktop/DBus interface=org.freedesktop.DBus member=Hello destination=org.freedesktop.DBus
= 6c01000100000000010000006d00000001016f00150000002f6f72672f667265656465736b746f702f4442757300000002017300140000006f72672e667265656465736b746f702e4442757300000000030173000500000048656c6c6f00000006017300140000006f72672e667265656465736b746f702e4442757300000000
step a0 add 1 0 0 push-button "OK"
step a0 state 1 focused on
~the race: edits behind the question for items
replay --brief
app "Demo"
drain
edit a0 insert 0 0 push-button "One"
reader
turns 44
edit a0 insert 0 1 push-button "Two"
show r0 a0
bytes r0 up 1000000
bytes a0 down 1000000
edit a0 name 1 "Uno"
bytes a0 up 1000000
bytes r0 down 1
turns 1
show r0 a0
turns 2
show r0 a0
turns 1
show r0 a0
=> 0
quiet
busy 44
show r0 a0 none
busy 1
show r0 a0 none
busy 2
show r0 a0 3
| root - -1 application 0000000043000100 "Demo" "" - - - -
| 1 root 0 push-button 0000000043000100 "One" "" - - - -
| 2 root 1 push-button 0000000043000100 "Two" "" - - - -
show r0 a0 3
| root - -1 application 0000000043000100 "Demo" "" - - - -
| 1 root 0 push-button 0000000043000100 "Uno" "" - - - -
| 2 root 1 push-button 0000000043000100 "Two" "" - - - -
~a node moves to another parent
replay --brief
app "T"
reader
drain
edit a0 insert 0 0 panel "A"
edit a0 insert 0 1 panel "B"
edit a0 insert 1 0 label "x"
drain
edit a0 move 1 2 0
bytes a0 up 1000000
turns 1
show r0 a0
turns 1
show r0 a0
turns 1
show r0 a0
turns 1
show r0 a0
edit a0 move 2 0 0
drain
=> 0
quiet
quiet
busy 1
show r0 a0 4
| root - -1 application 0000000043000100 "T" "" - - - -
| 2 root 0 panel 0000000043000100 "B" "" - - - -
| 1 2 0 panel 0000000043000100 "A" "" - - - -
| 3 1 0 label 0000000043000100 "x" "" - - - -
busy 1
show r0 a0 4
| root - -1 application 0000000043000100 "T" "" - - - -
| 2 root 0 panel 0000000043000100 "B" "" - - - -
| 1 2 0 panel 0000000043000100 "A" "" - - - -
| 3 1 0 label 0000000043000100 "x" "" - - - -
busy 1
show r0 a0 4
| root - -1 application 0000000043000100 "T" "" - - - -
| 2 root 0 panel 0000000043000100 "B" "" - - - -
| 1 2 0 panel 0000000043000100 "A" "" - - - -
| 3 1 0 label 0000000043000100 "x" "" - - - -
show r0 a0 4
| root - -1 application 0000000043000100 "T" "" - - - -
| 2 root 0 panel 0000000043000100 "B" "" - - - -
| 1 2 0 panel 0000000043000100 "A" "" - - - -
| 3 1 0 label 0000000043000100 "x" "" - - - -
quiet
~a node is gone before it is asked for
replay --brief
app "T"
reader
drain
edit a0 insert 0 0 panel "P"
drain
edit a0 insert 1 0 text "E" text "abc"
turns 3
edit a0 remove 1
drain
show r0 a0
=> 0
quiet
quiet
busy 3
quiet
show r0 a0 1
| root - -1 application 0000000043000100 "T" "" - - - -
~an application ends with a message on its way
replay --brief
app "Demo"
reader
drain
edit a0 name 0 "Other"
bytes a0 up 10
exit a0
drain
show r0 a0
=> 0
quiet
say r0 a0 "Demo, closed"
quiet
show r0 a0 none
~an application ends before its reader asks
replay --brief
reader
drain
app "Late"
turns 13
exit a0
bytes a0 up 1
drain
show r0 a0
=> 0
quiet
busy 13
quiet
show r0 a0 none
~an editor is used, and spoken
replay --brief
app "Editor"
reader
drain
edit a0 insert 0 0 frame "Untitled"
edit a0 insert 1 0 menu-bar ""
edit a0 insert 2 0 menu "File"
edit a0 insert 3 0 menu-item "New" action "press"
edit a0 insert 3 1 menu-item "Open" action "press"
edit a0 insert 3 2 check-menu-item "Wrap" action "toggle"
edit a0 insert 2 1 menu "Edit"
edit a0 insert 7 0 menu-item "Undo"
edit a0 insert 1 1 panel ""
edit a0 insert 9 0 label "Find"
edit a0 insert 9 1 entry "Find" text ""
edit a0 insert 9 2 push-button "Go" action "press"
edit a0 insert 1 2 table "Files" columns 2
edit a0 insert 13 0 table-cell "a.txt"
edit a0 insert 13 1 table-cell "10"
edit a0 insert 13 2 table-cell "b.txt"
edit a0 insert 13 3 table-cell "20"
edit a0 insert 1 3 list "Recent" select
edit a0 insert 18 0 list-item "One"
edit a0 insert 18 1 list-item "Two"
edit a0 insert 1 4 status-bar "Ready"
edit a0 state 6 checkable on
edit a0 focus 3
edit a0 state 3 expandable on
edit a0 state 3 expanded on
edit a0 focus 6
edit a0 press 6 0
edit a0 focus 11
edit a0 type 11 "né"
edit a0 cut 11 1 2
edit a0 focus 19
edit a0 select 18 0
edit a0 select 18 1
edit a0 insert 1 5 alert "Saved"
drain
=> 0
quiet
say r0 a0 "File, menu"
say r0 a0 "expanded"
say r0 a0 "Wrap, check menu item, not checked"
say r0 a0 "checked"
say r0 a0 "Find, entry"
say r0 a0 "typed: né"
say r0 a0 "deleted: é"
say r0 a0 "One, list item"
say r0 a0 "selected"
say r0 a0 "not selected"
say r0 a0 "alert: Saved"
quiet
~a text is cut
replay --brief
app "T"
reader
drain
edit a0 insert 0 0 text "E" text "héllo"
drain
edit a0 caret 1 5
edit a0 cut 1 1 3
edit a0 put 1 3 "!"
drain
show r0 a0
=> 0
quiet
quiet
quiet
show r0 a0 2
| root - -1 application 0000000043000100 "T" "" - - - -
| 1 root 0 text 0000000043000100 "E" "" TE "hlo!" 3 -
~a text is cut in another face
replay --brief
app "T"
reader
drain
edit a0 insert 0 0 text "E" text "héllo"
drain
edit a0 caret 1 5
swap a0
edit a0 cut 1 1 3
edit a0 put 1 3 "!"
drain
show r0 a0
=> 0
quiet
quiet
quiet
show r0 a0 2
| root - -1 application 0000000043000100 "T" "" - - - -
| 1 root 0 text 0000000043000100 "E" "" TE "hlo!" 3 -
~a script is made
make 3 1
=> 0
made 3 1 steps 3 nodes 3 says 1
~the root is removed
replay --brief
app "Demo"
edit a0 remove 0
=> 1
refused 2 IsRoot
~a node that is not there
replay --brief
app "Demo"
edit a0 name 7 "x"
=> 1
refused 2 NoNode
~an index past the children
replay --brief
app "Demo"
edit a0 insert 0 2 label "x"
=> 1
refused 2 BadIndex
~a node without a text
replay --brief
app "Demo"
edit a0 put 0 0 "x"
=> 1
refused 2 NoFace
~an application that was not started
replay --brief
app "Demo"
edit a1 focus 0
=> 1
refused 2 NoParty
~a word that is none
replay --brief
app "Demo"
frob
=> 1
refused 2 Form
~points, a rectangle and a point inside
hit
app "T"
insert 0 0 panel "P"
insert 1 0 push-button "A"
insert 1 1 push-button "B"
place 0 0 0 100 100
place 1 10 10 50 50
place 2 10 10 30 30
place 3 20 20 30 30
point 0 25 25
point 0 15 15
point 0 59 59
point 0 100 0
extents 3
inside 2 40 40
=> 0
return l 1 1 reply=1 destination=:1.0 signature=(so) [(":1.1" "/org/a11y/atspi/accessible/3")]
return l 1 2 reply=2 destination=:1.0 signature=(so) [(":1.1" "/org/a11y/atspi/accessible/2")]
return l 1 3 reply=3 destination=:1.0 signature=(so) [(":1.1" "/org/a11y/atspi/accessible/1")]
return l 1 4 reply=4 destination=:1.0 signature=(so) [(":1.1" "/org/a11y/atspi/null")]
return l 1 5 reply=5 destination=:1.0 signature=(iiii) [(20 20 30 30)]
return l 1 6 reply=6 destination=:1.0 signature=b [false]
~cells beside a cell, and relations
hit
app "T"
insert 0 0 table "F" columns 2
insert 1 0 table-cell "c"
insert 1 1 table-cell "c"
insert 1 2 table-cell "c"
insert 1 3 table-cell "c"
cell 1 1 down
cell 1 1 right
relate 1 2 3
follow 1 2
follow 1 4
cell 1 4 up
=> 1
cell 5
cell none
follow 3
follow none
refused 12 BadIndex
~an option that is none
replay --fast
=> 2
usage: atspi replay, check, make, bus, registry, app or read
~no edits are to be made
make 0 1
=> 2
usage: atspi replay, check, make, bus, registry, app or read
~numbers are not used again
replay
app "A"
app "B"
exit a0
exit a1
app "C"
=> 0
start a0 "A"
sent a0 call l 0 1 path=/org/freedesktop/DBus interface=org.freedesktop.DBus member=Hello destination=org.freedesktop.DBus
start a1 "B"
sent a1 call l 0 1 path=/org/freedesktop/DBus interface=org.freedesktop.DBus member=Hello destination=org.freedesktop.DBus
exit a0
exit a1
start a2 "C"
sent a2 call l 0 1 path=/org/freedesktop/DBus interface=org.freedesktop.DBus member=Hello destination=org.freedesktop.DBus
~more applications than kits
replay --brief
app "A"
app "A"
app "A"
app "A"
app "A"
app "A"
app "A"
app "A"
app "A"
app "A"
app "A"
app "A"
app "A"
app "A"
app "A"
app "A"
app "A"
=> 1
refused 17 NoKit
~a reader types
replay --brief
app "T"
reader
drain
edit a0 insert 0 0 text "E" text ""
edit a0 focus 1
drain
call r0 a0 1 insert-text 0 "hi"
drain
show r0 a0
=> 0
quiet
say r0 a0 "E, text"
quiet
say r0 a0 "typed: hi"
quiet
show r0 a0 2
| root - -1 application 0000000043000100 "T" "" - - - -
| 1 root 0 text 0000000043001100 "E" "" TE "hi" 0 -
~a call to an application that is not held
replay --brief
app "T"
reader
call r0 a0 1 insert-text 0 "hi"
drain
=> 1
refused 3 NotHeld
~more swaps than spares
replay --brief
app "T"
swap a0
swap a0
swap a0
swap a0
swap a0
swap a0
swap a0
swap a0
swap a0
swap a0
swap a0
swap a0
swap a0
swap a0
swap a0
swap a0
swap a0
=> 1
refused 18 NoSpare
~a reader is dropped at its quota
replay --brief
quota 1024
app "Demo"
reader
drain
edit a0 name 0 "a"
edit a0 name 0 "b"
edit a0 name 0 "c"
edit a0 name 0 "d"
edit a0 name 0 "e"
edit a0 name 0 "f"
bytes a0 up 1000000
show r0 a0
drain
=> 0
quiet
dropped r0 1000 200
show r0 a0 1
| root - -1 application 0000000043000100 "Demo" "" - - - -
quiet
~the registry is dropped at its quota
replay --brief
quota 1024
app "A"
bytes a0 up 1000000
app "A"
bytes a1 up 1000000
app "A"
bytes a2 up 1000000
app "A"
bytes a3 up 1000000
app "A"
bytes a4 up 1000000
app "A"
bytes a5 up 1000000
=> 9
dropped reg 945 189
~sixteen applications, four readers
replay --brief
app "A"
app "A"
app "A"
app "A"
app "A"
app "A"
app "A"
app "A"
app "A"
app "A"
app "A"
app "A"
app "A"
app "A"
app "A"
app "A"
reader
reader
reader
reader
drain
show r3 a15
=> 0
quiet
show r3 a15 1
| root - -1 application 0000000043000100 "A" "" - - - -
~a reader leaves, another starts
replay --brief
app "T"
reader
drain
edit a0 insert 0 0 text "E" text "x"
turns 1
leave r0
drain
reader
drain
show r1 a0
=> 0
quiet
busy 1
quiet
quiet
show r1 a0 2
| root - -1 application 0000000043000100 "T" "" - - - -
| 1 root 0 text 0000000043000100 "E" "" TE "x" 0 -
~an edit that is none
replay
app "Demo"
edit a0 help 0 "Editor of demos"
=> 1
start a0 "Demo"
sent a0 call l 0 1 path=/org/freedesktop/DBus interface=org.freedesktop.DBus member=Hello destination=org.freedesktop.DBus
refused 2 Form
~a reader types unheard
replay --brief
app "T"
reader
drain
edit a0 insert 0 0 text "E" text ""
drain
call r0 a0 1 insert-text 0 "hi"
drain
show r0 a0
=> 0
quiet
quiet
quiet
show r0 a0 2
| root - -1 application 0000000043000100 "T" "" - - - -
| 1 root 0 text 0000000043000100 "E" "" TE "hi" 0 -
"#;
