//! The news of the signals of a cache.

use crate::made::stop_unless;
use crate::news::told::tells;

const CACHE: &str = "org.a11y.atspi.Cache";

/// Signals of a cache at `:1.7` with the values that they carry, and what is told: items; an item without each of its
/// ten fields in turn, and with one too many; references, which tell something where they are the application's own;
/// and bodies of no value, of another type, and of two values.
const SIGNALS: &str = "\
AddAccessible|((so)(so)(so)iiassusau)|(|(|s=:1.7|s=/a|(|s=:1.7|s=/r|(|s=é|s=/p|i=1|i=0|u=13|s=a.B|s=|s=OK|u=43|s=Does it|u=8|u=256|u=1 => Item :1.7/a :1.7/r é/p 1 0 +a.B+ <OK> 43 <Does it> 4294967552\n\
AddAccessible|((so)(so)(so)iiassusau)|(|(|s=:1.7|s=/a|(|s=:1.7|s=/r|(|s=é|s=/p|i=-1|i=0|u=13|s=a.B|s=|s=OK|u=43|s=Does it|u=0 => Item :1.7/a :1.7/r é/p -1 0 +a.B+ <OK> 43 <Does it> 0\n\
AddAccessible|((so)(so)(so)iiassusau)|(|(|s=:1.7|s=/a|(|s=:1.7|s=/r|(|s=é|s=/p|i=2147483647|i=0|u=13|s=a.B|s=|s=OK|u=43|s=Does it|u=4|u=7 => Item :1.7/a :1.7/r é/p 2147483647 0 +a.B+ <OK> 43 <Does it> 7\n\
AddAccessible|((so)(so)(so)iiassusau)|(|(|s=:1.7|s=/a|(|s=:1.7|s=/r|(|s=é|s=/p|i=-2147483648|i=0|u=13|s=a.B|s=|s=OK|u=43|s=Does it|u=8|u=4294967295|u=4294967295 => Item :1.7/a :1.7/r é/p -2147483648 0 +a.B+ <OK> 43 <Does it> 18446744073709551615\n\
AddAccessible|((so)(so)(so)iiassusau)|(|(|s=:1.7|s=/a|(|s=:1.7|s=/r|(|s=é|s=/p|i=0|i=0|u=13|s=a.B|s=|s=OK|u=43|s=Does it|u=12|u=1|u=2|u=3 => Item :1.7/a :1.7/r é/p 0 0 +a.B+ <OK> 43 <Does it> 8589934593\n\
AddAccessible|((so)(so)iiassusau)|(|(|s=:1.7|s=/r|(|s=é|s=/p|i=1|i=0|u=13|s=a.B|s=|s=OK|u=43|s=Does it|u=4|u=1 => Nothing\n\
AddAccessible|((so)(so)iiassusau)|(|(|s=:1.7|s=/a|(|s=é|s=/p|i=1|i=0|u=13|s=a.B|s=|s=OK|u=43|s=Does it|u=4|u=1 => Nothing\n\
AddAccessible|((so)(so)iiassusau)|(|(|s=:1.7|s=/a|(|s=:1.7|s=/r|i=1|i=0|u=13|s=a.B|s=|s=OK|u=43|s=Does it|u=4|u=1 => Nothing\n\
AddAccessible|((so)(so)(so)iassusau)|(|(|s=:1.7|s=/a|(|s=:1.7|s=/r|(|s=é|s=/p|i=0|u=13|s=a.B|s=|s=OK|u=43|s=Does it|u=4|u=1 => Nothing\n\
AddAccessible|((so)(so)(so)iassusau)|(|(|s=:1.7|s=/a|(|s=:1.7|s=/r|(|s=é|s=/p|i=1|u=13|s=a.B|s=|s=OK|u=43|s=Does it|u=4|u=1 => Nothing\n\
AddAccessible|((so)(so)(so)iisusau)|(|(|s=:1.7|s=/a|(|s=:1.7|s=/r|(|s=é|s=/p|i=1|i=0|s=OK|u=43|s=Does it|u=4|u=1 => Nothing\n\
AddAccessible|((so)(so)(so)iiasusau)|(|(|s=:1.7|s=/a|(|s=:1.7|s=/r|(|s=é|s=/p|i=1|i=0|u=13|s=a.B|s=|u=43|s=Does it|u=4|u=1 => Nothing\n\
AddAccessible|((so)(so)(so)iiasssau)|(|(|s=:1.7|s=/a|(|s=:1.7|s=/r|(|s=é|s=/p|i=1|i=0|u=13|s=a.B|s=|s=OK|s=Does it|u=4|u=1 => Nothing\n\
AddAccessible|((so)(so)(so)iiassuau)|(|(|s=:1.7|s=/a|(|s=:1.7|s=/r|(|s=é|s=/p|i=1|i=0|u=13|s=a.B|s=|s=OK|u=43|u=4|u=1 => Nothing\n\
AddAccessible|((so)(so)(so)iiassus)|(|(|s=:1.7|s=/a|(|s=:1.7|s=/r|(|s=é|s=/p|i=1|i=0|u=13|s=a.B|s=|s=OK|u=43|s=Does it => Nothing\n\
AddAccessible|((so)(so)(so)iiassusaui)|(|(|s=:1.7|s=/a|(|s=:1.7|s=/r|(|s=é|s=/p|i=1|i=0|u=13|s=a.B|s=|s=OK|u=43|s=Does it|u=4|u=1|i=0 => Nothing\n\
RemoveAccessible|(so)|(|s=:1.7|s=/c => Removed /c\n\
RemoveAccessible|(so)|(|s=:1.8|s=/c => Nothing\n\
RemoveAccessible|(so)|(|s=|s=/c => Nothing\n\
RemoveAccessibles|(so)|(|s=:1.7|s=/c => Nothing\n\
AddAccessible|(so)|(|s=:1.7|s=/c => Nothing\n\
RemoveAccessible => Nothing\n\
RemoveAccessible|s|s=/c => Nothing\n\
AddAccessible => Nothing\n\
AddAccessible|s|s=/c => Nothing\n\
RemoveAccessible|(so)(so)|(|s=:1.7|s=/c|(|s=:1.7|s=/c => Nothing\n\
AddAccessible|((so)(so)(so)iiassusau)((so)(so)(so)iiassusau)|(|(|s=:1.7|s=/a|(|s=:1.7|s=/r|(|s=é|s=/p|i=0|i=0|u=13|s=a.B|s=|s=OK|u=43|s=Does it|u=0|(|(|s=:1.7|s=/a|(|s=:1.7|s=/r|(|s=é|s=/p|i=0|i=0|u=13|s=a.B|s=|s=OK|u=43|s=Does it|u=0 => Nothing";

#[test]
fn each_signal_tells_its_news(rt: HostRuntime) {
    for row in SIGNALS.split('\n') {
        stop_unless(&rt, row, tells(&rt, rt.alloc(), CACHE, 4, row));
    }
}
