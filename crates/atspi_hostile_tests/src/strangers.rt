//! Three thousand drawn messages of strangers through each end, each a message by the rules: the end takes them all and
//! answers each call once, all that it says is messages by the rules, and it goes on.

use crate::drawn::{Says, put_drawn, put_lines};
use crate::ends::{Ended, LINES, Outside, checked, run};
use crate::readers::STARTS;
use std::alloc::Global;
use std::process::Abort;

/// Values of each type, negative ones and those that are too large among them.
const VALUES: &str =
    "b=true i=0 i=1 i=-1 i=2 i=2147483647 i=-2147483648 u=0 u=1 u=4294967295 s= s=x s=:1.7 s=object s=window:: \
s=org.a11y.atspi.Accessible s=org.a11y.atspi.Text s=org.a11y.atspi.Application s=Name s=Id s=CaretOffset o=/x g=as \
(so)=:1.6@/x (so)=:1.7@/d (ss)=a@b v=x vi=7 vu=7 as= as=x;y ai= a{sv}=";

/// Types of messages; those that ask for an answer come more often.
const KINDS: &str = "call call call call quiet return error signal signal other";

/// What strangers say to an application. Some objects are there: the root, the cache, and the nodes 1 to 5.
const TO_APP: Says = Says {
    kinds: KINDS,
    senders: ":1.6 :1.7 :1.8 a.b -",
    paths: "root root cache 1 1 2 2 3 4 5 6 9 01 4294967296 registry bus /a /",
    members: "Accessible:GetChildAtIndex Accessible:GetChildren Accessible:GetIndexInParent Accessible:GetRole \
Accessible:GetRoleName Accessible:GetState Accessible:GetAttributes Accessible:GetInterfaces Application:GetLocale \
Cache:GetItems Text:GetText Text:SetCaretOffset Text:GetCharacterAtOffset Text:GetNSelections Text:GetSelection \
Text:AddSelection Text:RemoveSelection Text:SetSelection Text:GetStringAtOffset EditableText:SetTextContents \
EditableText:InsertText EditableText:DeleteText Selection:GetSelectedChild Selection:SelectChild \
Selection:DeselectChild Selection:DeselectSelectedChild Selection:IsChildSelected Selection:SelectAll \
Selection:ClearSelection Table:GetAccessibleAt Table:GetIndexAt Table:GetRowAtIndex Table:GetColumnAtIndex \
Table:GetSelectedRows Table:IsRowSelected Table:IsSelected Action:GetName Action:GetActions Action:DoAction \
Properties:Get Properties:GetAll Properties:Set Peer:Ping -:GetRole -:GetText -:Ping a.b:Ping \
Registry:EventListenerRegistered Registry:EventListenerDeregistered",
    values: VALUES,
};

/// What strangers say to the registry.
const TO_REGISTRY: Says = Says {
    kinds: KINDS,
    senders: ":1.6 :1.7 :1.8 bus a.b -",
    paths: "root root registry registry cache 1 bus /a /",
    members: "Registry:RegisterEvent Registry:RegisterEvent Registry:DeregisterEvent Registry:GetRegisteredEvents \
Socket:Embed Socket:Embed Socket:Unembed Accessible:GetChildren Accessible:GetChildAtIndex Accessible:GetRole \
Accessible:GetRoleName Properties:Get Properties:GetAll Properties:Set Peer:Ping -:Ping -:GetRole a.b:Ping \
bus:NameOwnerChanged bus:NameLost",
    values: VALUES,
};

/// Members that tell a reader something, and others.
const NEWS: &str =
    "Cache:AddAccessible Cache:RemoveAccessible Event.Object:ChildrenChanged Event.Object:PropertyChange \
Event.Object:StateChanged Event.Object:TextChanged Event.Object:TextCaretMoved bus:NameOwnerChanged \
Registry:EventListenerRegistered Accessible:GetChildren Peer:Ping -:Ping";

/// What strangers say to a reader: all but the bus, the registry and the application that it holds.
const TO_READER: Says = Says {
    kinds: KINDS,
    senders: ":1.6 :1.8 :1.9 a.b -",
    paths: "root cache 1 2 registry bus /r /a /",
    members: NEWS,
    values: "item=:1.7;/a,/r,0,t,7,A item=:1.6;/a,/r,0,t,7,A items=:1.7;/r,/,-1,-,75,X (so)=:1.7@/r (so)=:1.7@/a s=add s=remove \
s=focused s=insert s=delete s=accessible-name s=:1.7 s= i=0 i=1 i=-1 v=x vi=0 vu=7 v(so)=:1.7@/a a{sv}=",
};

/// What the held application itself says to its reader.
const BY_HELD: Says = Says {
    kinds: KINDS,
    senders: ":1.7",
    paths: "cache /r /a /b /c /",
    members: NEWS,
    values: "item=:1.7;/a,/r,0,t,7,A item=:1.7;/b,/a,-1,tc,7,B item=:1.7;/c,/b,9,-,2,C item=:1.7;/r,/c,0,-,75,R item=:1.6;/a,/r,0,t,7,A \
(so)=:1.7@/a (so)=:1.7@/b (so)=:1.7@/c (so)=:1.7@/r (so)=:1.7@/d (so)=:1.6@/a s=add s=remove s=focused s=checked s=insert \
s=delete s=accessible-name s=accessible-role s= i=0 i=1 i=-1 i=2147483647 i=-2147483648 v=x vi=0 vi=-1 vu=7 \
v(so)=:1.7@/a v(so)=:1.7@/c a{sv}=",
};

/// What the bus and the registry return to the calls of an application's start.
const APP_STARTS: &str = "\
return 1 bus 1 s=:1.5
return 2 bus 2
return 3 :1.0 3 a(ss)=
return 4 :1.0 4 (so)=org.a11y.atspi.Registry@/org/a11y/atspi/accessible/root";

/// The return of `:1.7` to a reader's GetItems.
const HELD: &str = "return 11 :1.7 11 items=:1.7;/r,/,-1,-,75,Pad;/a,/r,0,-,79,Find";

/// A call that an end answers which goes on.
const PING: &str = "call 9999 :1.6 root Peer Ping";

/// Whether a line of `check` is of a reply.
fn is_reply(line: &str) -> bool {
    match line.split(' ').nth(1) {
        Some(kind) => kind == "return" || kind == "error",
        None => false,
    }
}

/// How many replies are among the messages whose lines `check` wrote, where the last of all replies to the call of Ping.
fn replies_in(lines: &str) -> Option<u32> {
    if !lines.ends_with(" reply=9999 destination=:1.6\n") {
        return None;
    }
    Some(
        lines
            .lines()
            .filter(|line| is_reply(line))
            .count()
            .min(9_999) as u32,
    )
}

/// How many replies a run gave; none where what it gave is not the lines of a client and then messages by the rules,
/// the last the reply to Ping.
fn replies_of(rt: &impl Abort, alloc: Global, run: &Ended) -> Option<u32> {
    let said = run.given.as_slice().strip_prefix(LINES)?;
    let (status, lines) = checked(rt, alloc, said);
    if status != 0 {
        return None;
    }
    replies_in(std::str::from_utf8(&lines).ok()?)
}

/// All bytes in as few reads as may be, and then the link ends.
const ALL: Outside = Outside {
    most: 4096,
    ends: true,
    failing_write: None,
    rounds: 100_000,
};

/// Whether an end takes drawn messages and answers each call once.
fn answers(rt: &impl Abort, alloc: Global, end: &str, starts: &str, says: Says, seed: u64) -> bool {
    let mut bytes = Vec::new(alloc);
    put_lines(rt, alloc, &mut bytes, starts);
    let calls = put_drawn(rt, alloc, seed, says, &mut bytes);
    put_lines(rt, alloc, &mut bytes, PING);
    let run = run(rt, alloc, end, &bytes, ALL);
    run.wrote(0, b"") && replies_of(rt, alloc, &run) == Some(calls.saturating_add(1))
}

#[test]
fn an_application_answers_strangers(rt: HostRuntime) {
    assert!(rt; answers(&rt, rt.alloc(), "app", APP_STARTS, TO_APP, 1));
}

#[test]
fn the_registry_answers_strangers(rt: HostRuntime) {
    assert!(rt;
        answers(
            &rt,
            rt.alloc(),
            "registry",
            "return 1 bus 1 s=:1.0",
            TO_REGISTRY,
            2
        )
    );
}

/// What a reader comes to that holds an application, and then takes drawn messages, or none.
fn read_of(rt: &impl Abort, alloc: Global, says: Option<Says>, seed: u64) -> Ended {
    let mut bytes = Vec::new(alloc);
    put_lines(rt, alloc, &mut bytes, STARTS);
    put_lines(rt, alloc, &mut bytes, HELD);
    if let Some(says) = says {
        put_drawn(rt, alloc, seed, says, &mut bytes);
    }
    run(rt, alloc, "read", &bytes, ALL)
}

/// What a reader shows that holds the application.
const SHOWN: &[u8] = b"show :1.7 2\n| /r - -1 application 0000000000000000 \"Pad\" \"\" - - - -\n\
| /a /r 0 entry 0000000000000000 \"Find\" \"\" - - - -\n";

/// Strangers change nothing: the reader says and shows what it would without them.
#[test]
fn a_reader_passes_over_strangers(rt: HostRuntime) {
    let alone = read_of(&rt, rt.alloc(), None, 3);
    let run = read_of(&rt, rt.alloc(), Some(TO_READER), 3);
    assert!(rt; alone.wrote(0, SHOWN));
    assert!(rt; run.wrote(0, SHOWN) && run.given == alone.given);
}

/// Whether a run ended well, and said messages by the rules alone.
fn keeps_rules(rt: &impl Abort, alloc: Global, run: &Ended) -> bool {
    match run.given.as_slice().strip_prefix(LINES) {
        Some(said) => run.status == 0 && checked(rt, alloc, said).0 == 0,
        None => false,
    }
}

/// Whatever the application says that it holds.
#[test]
fn a_reader_goes_on_with_a_hostile_application(rt: HostRuntime) {
    let run = read_of(&rt, rt.alloc(), Some(BY_HELD), 4);
    assert!(rt; keeps_rules(&rt, rt.alloc(), &run));
}
