//! The tables of this crate: bytes, and what is told of them.

use crate::rows::{Asked, try_rows};
use std::test::*;

/// Bytes that are a text, or none.
const READINGS: &str = "\
\x20=> 0 0
abc => 0 3
h%c3%a9llo => 0 5
%f0%9f%98%80 => 0 1
a%00b => 1 1
%00 => 1 0
ab%ff => 2 2
ab%c3 => 2 2
%ed%a0%80 => 2 0
%c0%80 => 2 0
a%00%ff => 1 1
a%ff%00 => 2 1";

/// Bytes, and what they are in quotes.
const QUOTED: &str = r#" => ""
plain => "plain"
" => "\""
\ => "\\"
a"b\c => "a\"b\\c"
%01 => "\x01"
%1f%20%20 => "\x1f  "
%7f => "\x7f"
%80%ff => "%80%ff"
tab%09here%0a => "tab\x09here\x0a"
caf%c3%a9 => "caf%c3%a9"
"" => "\"\"""#;

/// Two numbers; then the first in hex and in decimal, and the second with its sign.
const DIGITS: &str = "\
0 0 => 0000000000000000 0 0
43981 -1 => 000000000000abcd 43981 -1
10 127 => 000000000000000a 10 127
18446744073709551615 -9223372036854775808 => ffffffffffffffff 18446744073709551615 -9223372036854775808
4607182418800017408 9223372036854775807 => 3ff0000000000000 4607182418800017408 9223372036854775807";

/// Bytes that are names, or none.
const NAMES: &str = "\
\x20=> ----
/ => p---
/a => p---
/a/ => ----
/a/b_9/0 => p---
// => ----
/a//b => ----
a/b => ----
/a-b => ----
/a.b => ----
/%c3%a9 => ----
/a%00 => ----
a => ---m
_ => ---m
0a => ----
a0 => ---m
a-b => ----
a b => ----
a.b => -bi-
_a.b0.C => -bi-
a.0b => ----
a-b.c => -b--
-a.b => -b--
.a => ----
a. => ----
a..b => ----
:1.0 => -b--
:1 => ----
: => ----
:1. => ----
a:1.0 => ----
org.freedesktop.DBus => -bi-
a_0 => ---m
a/b.c => ----
:1.- => -b--";

/// The same at the limits.
const LONG_NAMES: &str = "\
* /a*200 => p---
* a.*127 b*1 => -bi-
* a.*127 b*2 => ----
* :1.*85 => ----
* :*1 1.*126 22*1 => -b--
* :*1 1.*126 222*1 => ----
* a*255 => ---m
* a*256 => ----";

/// Codes that are a signature, or none.
const SIGNATURES: &str = "\
\x20=> 0 0
ybnqiuxtdsogv => 0 13
a{sv} => 0 1
a(ii)a{ua{sv}} => 0 2
aa{sav}(i(as)) => 0 2
a{sa{oa{yv}}} => 0 1
a{s(a{ss}a{gg})} => 0 1
aaaay => 0 1
((y))(y)y => 0 3
i? => 2 1
a? => 2 1
a{si? => 2 4
h => 3 0
ah => 3 1
a{h => 3 2
a{sih => 3 4
aa => 4 2
a) => 4 1
a} => 4 1
(a) => 4 2
(a => 4 2
a{sa} => 4 4
() => 5 1
a() => 5 2
(i => 6 2
i) => 6 1
(i} => 6 2
((i) => 6 4
a{ => 6 2
a{s) => 6 3
a{sv => 6 4
} => 6 0
{sv} => 7 0
({sv}) => 7 1
a{{s => 7 2
a{si{ => 7 4
a(y){ => 7 4
a{vs} => 8 2
a{ais} => 8 2
a{(i)s} => 8 2
a{} => 8 2
a{s} => 8 3
a{siv} => 8 4
a{sia => 8 4
a{si( => 8 4
a{s(y)a => 8 6";

/// The same at the limits.
const LONG: &str = "\
* a*31 y*1 => 0 1
* a*32 y*1 => 0 1
* a*33 y*1 => 9 32
* (*31 y*1 )*31 => 0 1
* (*32 y*1 )*32 => 0 1
* (*33 y*1 )*33 => 9 32
* a(*32 y*1 )*32 => 0 1
* (a*32 y*1 )*32 => 0 1
* a(*32 ay*1 )*32 => 9 64
* a(*32 (y)*1 )*32 => 9 64
* a{s*32 y*1 }*32 => 0 1
* a{s*33 y*1 }*33 => 9 96
* a*32 y*1 a*32 y*1 => 0 2
* (*32 y*1 )*32 (*32 y*1 )*32 => 0 2
* (y)*85 => 0 85
* y*255 => 0 255
* y*256 => 1 255
* y*255 ?*1 => 1 255
* y*254 ?*2 => 2 254
* y*254 a*1 => 4 255";

/// Codes, and those of a copy of their signature.
const COPIED: &str = "\
\x20=> codes 
ybnqiuxtdsogv => codes ybnqiuxtdsogv
a(ii)a{ua{sv}} => codes a(ii)a{ua{sv}}
(ay(v)) => codes (ay(v))";

/// Codes of a signature; `none`, `only` or `many` types, and the codes of each.
const TYPES: &str = "\
\x20=> none.
ya(ii)((s)g)a{ua{sv}}aavo => many y a(ii) ((s)g) a{ua{sv}} aav o.
a{s(yy)} => only a{s(yy)}.";

/// Codes of a type; its shape, the codes of the types in it (a dash where there are none), its alignment, `b` where it
/// is basic, which of its element, its fields and its entry it has, its first code and its codes. `none` where they are
/// not one type alone, and the reason and the place of their first fault.
const SHAPES: &str = "\
y => byte - - 1 b --- y y
b => bool - - 4 b --- b b
n => i16 - - 2 b --- n n
q => u16 - - 2 b --- q q
i => i32 - - 4 b --- i i
u => u32 - - 4 b --- u u
x => i64 - - 8 b --- x x
t => u64 - - 8 b --- t t
d => double - - 8 b --- d d
s => text - - 4 b --- s s
o => path - - 4 b --- o o
g => signature - - 1 b --- g g
v => variant - - 1 - --- v v
ay => array y - 4 - e-- a ay
aa{sv} => array a{sv} - 4 - e-- a aa{sv}
a(so) => array (so) - 4 - e-- a a(so)
(i) => struct i - 8 - -f- ( (i)
((so)a{sv}y) => struct (so)a{sv}y - 8 - -f- ( ((so)a{sv}y)
a{sv} => dict s v 4 - --d a a{sv}
a{o(ii)} => dict o (ii) 4 - --d a a{o(ii)}
a{ya{ya{yy}}} => dict y a{ya{yy}} 4 - --d a a{ya{ya{yy}}}
a{sa(y(v))} => dict s a(y(v)) 4 - --d a a{sa(y(v))}
a{s(iay)} => dict s (iay) 4 - --d a a{s(iay)}
\x20=> none
(y)(y) => none
yy => none
a => 4 1";

#[test]
fn of_bytes_is_told_what_is_due(rt: HostRuntime) {
    try_rows(&rt, rt.alloc(), Asked::Text, READINGS);
    try_rows(&rt, rt.alloc(), Asked::Quotes, QUOTED);
    try_rows(&rt, rt.alloc(), Asked::Digits, DIGITS);
    try_rows(&rt, rt.alloc(), Asked::Names, NAMES);
    try_rows(&rt, rt.alloc(), Asked::Names, LONG_NAMES);
    try_rows(&rt, rt.alloc(), Asked::Signature, SIGNATURES);
    try_rows(&rt, rt.alloc(), Asked::Signature, LONG);
    try_rows(&rt, rt.alloc(), Asked::Copied, COPIED);
    try_rows(&rt, rt.alloc(), Asked::Types, TYPES);
    try_rows(&rt, rt.alloc(), Asked::Type, SHAPES);
}
