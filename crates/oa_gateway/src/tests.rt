//! A made-up server and made-up clients, byte by byte.
use crate::place::{ABSENT, ENDING, NumberState, OVER, PRESENT};
use crate::{
    BatchLimits, Conduct, Exclusion, GATEWAY, Heard, Moment, Patience, Queue, Taking, Verdict,
    Waiting, WholeRequests, Whose, find_requests, hear, heaviest, judge, must_give_way, put_now,
    restart,
};

/// A request of two bytes, one of one byte, and the first bytes of another.
const SENT: [u8; 14] = [2, 0, 0, 0, 7, 8, 1, 0, 0, 0, 9, 5, 0, 0];

#[test]
fn requests_are_found_byte_by_byte(rt: HostRuntime) {
    for (count, whole) in [(0, 0), (3, 0), (5, 0), (6, 6), (10, 6), (11, 11), (14, 11)] {
        let found = find_requests(&SENT[..count]);
        assert_eq!(rt;
            found,
            WholeRequests { whole, ends: false },
            "{count} bytes"
        );
    }
}

#[test]
fn lengths_that_no_request_has(rt: HostRuntime) {
    for (bytes, whole, ends) in [
        ([0, 0, 0, 0, 1, 0, 0, 0, 9], 0, true),
        ([1, 0, 0, 0, 9, 0, 0, 0, 0], 5, true),
        ([1, 0, 0, 0, 9, 1, 0, 64, 0], 5, true),
        ([1, 0, 0, 0, 9, 0, 0, 64, 0], 5, false),
    ] {
        assert_eq!(rt;
            find_requests(&bytes),
            WholeRequests { whole, ends },
            "{bytes:?}"
        );
    }
}

/// A call for a number.
#[derive(Clone, Copy, Debug)]
enum Act {
    Sends,
    Closes,
    Leaves,
    Reply,
    End,
}

/// Its result: how many bytes go to the server, or the decision on a frame.
#[derive(Clone, Copy, Debug, PartialEq, Eq)]
enum Outcome {
    Puts(Option<usize>),
    Hears(Heard),
}

/// Hears a frame whose bytes come one at a time.
fn heard(places: &mut [NumberState], bytes: &[u8]) -> Heard {
    for count in 0..bytes.len() {
        let found = hear(places, &bytes[..count]);
        if found != Heard::More {
            return found;
        }
    }
    hear(places, bytes)
}

/// Returns the result of a call for number 0.
fn come_of(places: &mut [NumberState; 1], act: Act) -> Outcome {
    let mut out = [0u8; 32];
    match act {
        Act::Sends => Outcome::Puts(places[0].send(0, &[1, 0, 0, 0, 9], &mut out)),
        Act::Closes => Outcome::Puts(places[0].close(0, &mut out)),
        Act::Leaves => Outcome::Puts(places[0].leave(0, &mut out)),
        Act::Reply => Outcome::Hears(heard(places, &[0, 0, 0, 0, 2, 0, 0, 0, 5, 6])),
        Act::End => Outcome::Hears(heard(places, &[0, 0, 0, 0, 0, 0, 0, 0])),
    }
}

/// Two clients have one number, one after the other. The server's replies to the first come when
/// the second has asked.
#[test]
fn a_number_is_used_again(rt: HostRuntime) {
    let mut places = [NumberState {
        presence: ABSENT,
        owed: 0,
    }];
    for (act, told, presence, owed) in [
        (Act::Sends, Outcome::Puts(Some(13)), PRESENT, 0),
        (Act::Leaves, Outcome::Puts(Some(8)), ABSENT, 1),
        (Act::Sends, Outcome::Puts(Some(13)), PRESENT, 1),
        (Act::Closes, Outcome::Puts(Some(8)), ENDING, 1),
        (Act::Sends, Outcome::Puts(None), ENDING, 1),
        (Act::Closes, Outcome::Puts(Some(0)), ENDING, 1),
        (
            Act::Reply,
            Outcome::Hears(Heard::Dropped {
                client: 0,
                count: 2,
            }),
            ENDING,
            1,
        ),
        (
            Act::End,
            Outcome::Hears(Heard::Dropped {
                client: 0,
                count: 0,
            }),
            ENDING,
            0,
        ),
        (
            Act::Reply,
            Outcome::Hears(Heard::Given {
                client: 0,
                count: 2,
            }),
            ENDING,
            0,
        ),
        (Act::End, Outcome::Hears(Heard::Ended(0)), OVER, 0),
        (Act::Reply, Outcome::Hears(Heard::Wrong), OVER, 0),
        (Act::End, Outcome::Hears(Heard::Wrong), OVER, 0),
        (Act::Leaves, Outcome::Puts(Some(0)), ABSENT, 0),
    ] {
        assert_eq!(rt; come_of(&mut places, act), told, "{act:?}");
        assert_eq!(rt; places[0], NumberState { presence, owed }, "{act:?}");
    }
}

#[test]
fn what_goes_to_the_server(rt: HostRuntime) {
    let mut place = NumberState {
        presence: ABSENT,
        owed: 0,
    };
    let mut out = [0u8; 12];
    assert_eq!(rt; place.send(258, &[1, 0, 0, 0, 9], &mut out), None);
    let mut out = [0u8; 21];
    assert_eq!(rt; place.send(258, &[1, 0, 0, 0, 9], &mut out), Some(13));
    assert_eq!(rt;
        &out[..13],
        [2, 1, 0, 0, 5, 0, 0, 0, 1, 0, 0, 0, 9].as_slice()
    );
    assert_eq!(rt; place.close(GATEWAY, &mut out), None);
    assert_eq!(rt; place.close(258, &mut out), Some(8));
    assert_eq!(rt; &out[..8], [2, 1, 0, 0, 0, 0, 0, 0].as_slice());
}

#[test]
fn what_ends_a_batch(rt: HostRuntime) {
    let mut out = [1u8; 16];
    assert_eq!(rt; put_now(&mut out), Some(16));
    assert_eq!(rt;
        out,
        [
            254, 255, 255, 255, 0, 0, 0, 0, 255, 255, 255, 255, 0, 0, 0, 0
        ]
    );
    assert_eq!(rt; heard(&mut [], &out), Heard::Answered);
}

#[test]
fn another_server(rt: HostRuntime) {
    let mut places = [
        NumberState {
            presence: ABSENT,
            owed: 3,
        },
        NumberState {
            presence: PRESENT,
            owed: 0,
        },
    ];
    restart(&mut places);
    assert_eq!(rt;
        places,
        [
            NumberState {
                presence: ABSENT,
                owed: 0
            },
            NumberState {
                presence: OVER,
                owed: 0
            }
        ]
    );
}

/// Returns the body of a request with this opcode, and with these flags if it is an INVOKE.
fn body_of(opcode: u8, flags: u8) -> [u8; 56] {
    let mut body = [0u8; 56];
    body[4] = opcode;
    body[52] = flags;
    body
}

#[test]
fn a_turn_takes_what_it_may(rt: HostRuntime) {
    let mut turn = BatchLimits {
        requests: 7,
        asks: 3,
        bytes: 1_048_576,
        weight: 500_000,
        expected: 0,
        most: 1_048_576,
        room: 1_200_000,
        first: true,
    };
    for (what, opcode, flags, taking) in [
        ("a put", 4, 4, Taking::Taken),
        ("a put by reference", 4, 8, Taking::Taken),
        ("a get", 4, 2, Taking::Taken),
        ("a method", 4, 1, Taking::Taken),
        ("an element: 1,500,000 bytes of replies", 5, 0, Taking::Much),
        ("a list", 11, 0, Taking::Much),
        ("a lock", 8, 0, Taking::Taken),
        ("an element that is put", 6, 0, Taking::Taken),
        ("a description of a type", 10, 0, Taking::Much),
        ("a new object", 1, 0, Taking::Taken),
        ("one more", 1, 0, Taking::Full),
    ] {
        assert_eq!(rt; turn.take(&body_of(opcode, flags)), taking, "{what}");
    }
    assert_eq!(rt; (turn.asks, turn.expected), (1, 1_000_000));
}

#[test]
fn the_first_reply_of_a_batch(rt: HostRuntime) {
    for (what, asks, weight, expected, room, first, taking) in [
        (
            "none may be asked for",
            0,
            0,
            0,
            9_000_000,
            true,
            Taking::Often,
        ),
        (
            "it is long",
            1,
            3_000_000,
            0,
            9_000_000,
            false,
            Taking::Taken,
        ),
        (
            "it is long, and the memory is in use",
            1,
            3_000_000,
            0,
            2_000_000,
            true,
            Taking::Taken,
        ),
        (
            "there is no memory",
            1,
            3_000_000,
            0,
            2_000_000,
            false,
            Taking::Lacks,
        ),
        (
            "another one was before",
            1,
            3_000_000,
            20,
            9_000_000,
            true,
            Taking::Much,
        ),
        (
            "there is no memory for both",
            1,
            30,
            20,
            49,
            true,
            Taking::Lacks,
        ),
        ("there is", 1, 30, 20, 50, false, Taking::Taken),
        (
            "replies that are not counted",
            1,
            0,
            2_000_000,
            0,
            false,
            Taking::Taken,
        ),
    ] {
        let mut turn = BatchLimits {
            requests: 1,
            asks,
            bytes: 1,
            weight,
            expected,
            most: 1_048_576,
            room,
            first,
        };
        assert_eq!(rt; turn.take(&body_of(4, 2)), taking, "{what}");
    }
}

#[test]
fn a_batch_has_its_bytes(rt: HostRuntime) {
    for (what, bytes, size, taking, left) in [
        ("none are left", 0, 8, Taking::Full, 0),
        ("one is left", 1, 8, Taking::Taken, 0),
        ("a request has its length too", 13, 8, Taking::Taken, 1),
        ("it takes all", 60, 56, Taking::Taken, 0),
        ("it is longer", 59, 56, Taking::Taken, 0),
    ] {
        for opcode in [1, 11] {
            let mut turn = BatchLimits {
                requests: 2,
                asks: 1,
                bytes,
                weight: 0,
                expected: 0,
                most: 1_048_576,
                room: 1_048_576,
                first: true,
            };
            assert_eq!(rt; turn.take(&body_of(opcode, 0)[..size]), taking, "{what}");
            assert_eq!(rt; turn.bytes, left, "{what}");
        }
    }
}

#[test]
fn clients_have_turns_in_a_batch(rt: HostRuntime) {
    let mut left: u32 = 100;
    let mut expected: usize = 0;
    for (what, weight, wanted, taken) in [
        ("64 in one turn", 0, 70, 64),
        ("one long reply", 900_000, 3, 1),
        ("no other one as long", 900_000, 3, 0),
        ("but shorter ones", 60_000, 3, 2),
        ("and short ones", 0, 70, 33),
        ("then it is full", 0, 70, 0),
    ] {
        let mut turn = BatchLimits {
            requests: left.min(64),
            asks: 100,
            bytes: 1_048_576,
            weight,
            expected,
            most: 1_048_576,
            room: 9_000_000,
            first: true,
        };
        let mut count: u32 = 0;
        for _ in 0..wanted {
            if turn.take(&body_of(11, 0)) == Taking::Taken {
                count = count.saturating_add(1);
            }
        }
        assert_eq!(rt; count, taken, "{what}");
        left = left.saturating_sub(count);
        expected = turn.expected;
    }
    assert_eq!(rt; (left, expected), (0, 1_020_000));
}

/// Returns the conduct of a client with `unread` bytes of replies. The others are the milliseconds
/// for which it has read none of them, has been silent, and has had an incomplete request.
fn conduct(unread: usize, unread_for: u64, silent: u64, incomplete_for: u64) -> Conduct {
    Conduct {
        unread,
        unread_for,
        silent,
        incomplete_for,
        asks_nothing: true,
    }
}

#[test]
fn who_is_disconnected(rt: HostRuntime) {
    let patience = Patience {
        stalled: 30,
        idle: 3_600,
    };
    for (what, client, verdict) in [
        ("it is quiet", conduct(0, 9_000, 3_600, 0), Verdict::Stays),
        ("too quiet", conduct(0, 9_000, 3_601, 0), Verdict::Idle),
        ("a slow reader", conduct(9, 30, 0, 0), Verdict::Stays),
        (
            "it has stopped reading",
            conduct(9, 31, 0, 0),
            Verdict::Unread,
        ),
        (
            "it reads, and sends nothing",
            conduct(9, 30, 9_000, 0),
            Verdict::Stays,
        ),
        ("a request comes", conduct(0, 0, 0, 30), Verdict::Stays),
        ("it does not", conduct(0, 0, 0, 31), Verdict::Incomplete),
        (
            "nor does it with replies",
            conduct(9, 30, 0, 31),
            Verdict::Incomplete,
        ),
    ] {
        assert_eq!(rt; judge(&client, &patience), verdict, "{what}");
    }
    let mut waiting = conduct(0, 9_000, 9_000, 0);
    waiting.asks_nothing = false;
    assert_eq!(rt; judge(&waiting, &patience), Verdict::Stays);
}

#[test]
fn memory_for_replies(rt: HostRuntime) {
    for (what, unread, unread_for, used, lacks, goes) in [
        ("half is free", 5, 1_001, 32, false, false),
        ("less is free", 5, 1_001, 33, false, true),
        ("a request waits for some", 5, 1_001, 32, true, true),
        ("it reads", 5, 1_000, 64, true, false),
        ("it has read all", 0, 9_000, 64, true, false),
    ] {
        let client = conduct(unread, unread_for, 0, 0);
        assert_eq!(rt; must_give_way(&client, used, 64, lacks), goes, "{what}");
    }
    let nobody: [usize; 0] = [];
    assert_eq!(rt; heaviest(&nobody), None);
    assert_eq!(rt; heaviest(&[0, 0]), None);
    assert_eq!(rt; heaviest(&[3, 8, 0, 8, 7]), Some(1));
}

#[test]
fn clients_wait_in_a_queue(rt: HostRuntime) {
    let mut places = [0; 4];
    let mut queue = Queue {
        kept: 0,
        next: 0,
        end: 0,
    };
    for batch in 0..9u32 {
        for client in [7, 8, 9] {
            assert!(rt;
                queue.join(&mut places, client),
                "{client} joins in batch {batch}"
            );
        }
        for (what, first, waits, took) in [
            ("it has asked everything", Some(7), false, true),
            ("it has more", Some(8), true, true),
            ("the batch takes none", Some(9), true, false),
            ("nor of this one", Some(8), true, false),
            ("nobody waits", None, true, true),
        ] {
            assert_eq!(rt; queue.first(&places), first, "{what}, batch {batch}");
            assert!(rt; queue.had_turn(&mut places, waits, took), "{what}");
        }
        assert!(rt; queue.renew(&mut places));
        assert_eq!(rt; queue.first(&places), Some(9));
        assert!(rt; queue.remove(&mut places, 8));
        assert!(rt; !queue.remove(&mut places, 8), "it waits no more");
        assert!(rt; queue.join(&mut places, 6));
        assert!(rt; queue.remove(&mut places, 9));
        assert_eq!(rt; queue.first(&places), Some(6));
        assert!(rt; queue.remove(&mut places, 6));
    }
}

#[test]
fn a_queue_has_room(rt: HostRuntime) {
    let mut places = [0; 2];
    let mut queue = Queue {
        kept: 0,
        next: 0,
        end: 0,
    };
    for (what, client, joins) in [("one", 1, true), ("two", 2, true), ("three", 3, false)] {
        assert_eq!(rt; queue.join(&mut places, client), joins, "{what}");
    }
    assert!(rt; queue.had_turn(&mut places, true, false));
    assert!(rt; !queue.join(&mut places, 3), "one keeps its place");
    assert!(rt; queue.had_turn(&mut places, false, true));
    assert!(rt; queue.join(&mut places, 3), "one has gone");
    assert!(rt; queue.renew(&mut places));
    assert_eq!(rt; places, [1, 3]);
    for (kept, next, end) in [(0, 0, 3), (0, 2, 1), (2, 1, 2)] {
        let mut wrong = Queue { kept, next, end };
        assert!(rt; !wrong.join(&mut places, 5));
        assert!(rt; !wrong.had_turn(&mut places, true, true));
        assert!(rt; !wrong.renew(&mut places));
        assert!(rt; !wrong.remove(&mut places, 1));
    }
}

#[test]
fn whose_batch_it_is(rt: HostRuntime) {
    let mut exclusion = Exclusion {
        is_held: false,
        others_first: false,
    };
    for (what, holder, exclusive, shared, whose) in [
        ("nobody waits", false, false, false, Whose::Nobody),
        ("they share it", false, false, true, Whose::Shared),
        ("one comes", false, true, true, Whose::NextHolder),
        ("it has it", true, true, true, Whose::Holder),
        ("it waits for its replies", false, true, true, Whose::Nobody),
    ] {
        let waiting = Waiting {
            holder,
            exclusive,
            shared,
        };
        assert_eq!(rt; exclusion.begin(&waiting), whose, "{what}");
    }
    exclusion.let_go();
    for (what, exclusive, shared, whose) in [
        ("nobody waits", false, false, Whose::Nobody),
        ("others come first", true, true, Whose::Shared),
        ("then the next one", true, true, Whose::NextHolder),
    ] {
        let waiting = Waiting {
            holder: false,
            exclusive,
            shared,
        };
        assert_eq!(rt; exclusion.begin(&waiting), whose, "{what}");
    }
    exclusion.let_go();
    let alone = Waiting {
        holder: false,
        exclusive: true,
        shared: false,
    };
    assert_eq!(rt; exclusion.begin(&alone), Whose::NextHolder);
}

#[test]
fn when_a_batch_begins(rt: HostRuntime) {
    for (what, awaited, since, took, after) in [
        ("nobody is awaited", 0, 0, 400, 0),
        ("a quarter of a batch", 1, 0, 400, 100),
        ("some of it is over", 1, 60, 403, 40),
        ("it is over", 1, 100, 403, 0),
        ("long ago", 9, 5_000, 400, 0),
        ("a slow device", 9, 500_000, 9_000_000, 1_500_000),
    ] {
        let mut moment = Moment {
            is_up: true,
            in_flight: false,
            is_held: false,
            ends_wait: false,
            awaited,
            since,
            took,
        };
        assert_eq!(rt; moment.begins_in(Whose::Shared), Some(after), "{what}");
        assert_eq!(rt; moment.begins_in(Whose::Nobody), None, "{what}");
        moment.ends_wait = true;
        assert_eq!(rt; moment.begins_in(Whose::Nobody), Some(after), "{what}");
        moment.in_flight = true;
        assert_eq!(rt; moment.begins_in(Whose::Holder), None, "{what}");
    }
}
