//! Tests of the joined text and of origins.

use crate::{JoinFault, Joined, Origin, Part, join_texts};
use std::alloc::Global;
use std::process::Abort;

/// Declares zero and successor. The section ends in a comment, and the text in no line feed.
const NAT: &[u8] = b"% numbers\nREC-SPEC Nat % Peano\nSORTS Nat\nCONS\n\
    \x20 z : -> Nat % zero\n\
    \x20 s : Nat -> Nat % END-SPEC\nEND-SPEC";

/// Declares addition, on one line.
const PLUS: &[u8] =
    b"REC-SPEC Plus OPNS p : Nat Nat -> Nat VARS X Y : Nat RULES p(X,z) -> X p(X,s(Y)) -> s(p(X,Y)) EVAL p(z,s(z)) END-SPEC % end";

/// Both texts together.
const BOTH: &[u8] = b"% nat\n% numbers\n% nat\n% Peano\nREC-SPEC Plus\n\
    SORTS\n\x20 % nat\n\x20 Nat\n\
    CONS\n\x20 % nat\n\x20 z : -> Nat % zero\n\x20 s : Nat -> Nat % END-SPEC\n\
    OPNS\n\x20 % a?b\n\x20 p : Nat Nat -> Nat\n\
    VARS\n\x20 % a?b\n\x20 X Y : Nat\n\
    RULES\n\x20 % a?b\n\x20 p(X,z) -> X p(X,s(Y)) -> s(p(X,Y))\n\
    EVAL\n\x20 % a?b\n\x20 p(z,s(z))\n\
    END-SPEC\n% a?b\n% end\n";

/// Returns the two parts.
fn parts() -> [Part<'static>; 2] {
    [
        Part {
            name: b"nat",
            text: NAT,
        },
        Part {
            name: b"a\nb",
            text: PLUS,
        },
    ]
}

/// Compares the origin of an offset in the joined text.
fn comes_from(rt: &impl Abort, joined: &Joined, at: usize, origin: Option<Origin>) {
    assert!(rt; joined.origin(at) == origin, "origin of {at}");
}

#[test]
fn joins(rt: HostRuntime) {
    match join_texts(rt.alloc(), &parts()) {
        Ok(joined) => {
            assert!(rt; joined.syntax.source() == BOTH);
            comes_from(&rt, &joined, 5, None);
            comes_from(&rt, &joined, 6, Some(Origin { part: 0, at: 0 }));
            comes_from(&rt, &joined, 14, Some(Origin { part: 0, at: 8 }));
            comes_from(&rt, &joined, 15, None);
            let end = Origin {
                part: 1,
                at: PLUS.len() - 1,
            };
            comes_from(&rt, &joined, BOTH.len() - 2, Some(end));
            comes_from(&rt, &joined, BOTH.len() - 1, None);
        }
        Err(fault) => assert!(rt; false, "{fault}"),
    }
}

/// Returns the error of parts with these texts.
fn fault_of(alloc: Global, texts: [&[u8]; 2]) -> Option<JoinFault> {
    let [one, other] = texts;
    let parts = [
        Part {
            name: b"one",
            text: one,
        },
        Part {
            name: b"other",
            text: other,
        },
    ];
    join_texts(alloc, &parts).err()
}

#[test]
fn refuses(rt: HostRuntime) {
    let alloc = rt.alloc();
    assert!(rt; matches!(join_texts(alloc, &[]).err(), Some(JoinFault::Empty)));
    let fault = fault_of(alloc, [NAT, b"REC-SPEC A SORTS : END-SPEC"]);
    assert!(rt; matches!(fault, Some(JoinFault::Grammar { part: 1, at: 17 })));
    let fault = fault_of(alloc, [b"", b""]);
    assert!(rt; matches!(fault, Some(JoinFault::Grammar { part: 0, at: 0 })));
}
