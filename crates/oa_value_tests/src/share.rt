//! Decoding the frames of three clients: the bodies and stream ends of each client, and their
//! order.
use crate::asserts::expect;
use oa_frame::End;
use oa_mux::{ClientItem, Clients, FrameHead};
use std::alloc::Global;
use std::rt::HostRuntime;

/// One item of a stream: the client, a letter and a length. `B` is a body of that many bytes; `C`,
/// `E`, `L` and `Z` are ends of a client's stream; `N` is *now*.
type Brought = (u32, char, usize);

/// Adds the items that the bytes of one frame complete.
fn of_frame(
    clients: &mut Clients,
    client: u32,
    mut bytes: &[u8],
    all: &mut Vec<Brought>,
) -> Option<()> {
    'steps: for _ in 0..bytes.len() {
        if bytes.is_empty() {
            break;
        }
        let step = clients.step(client, bytes).ok()?;
        match &step.what {
            ClientItem::Nothing => {}
            ClientItem::Body(record) => all.push((client, 'B', record.body().len())).ok()?,
            ClientItem::Ends(End::TooLong) => all.push((client, 'L', 0)).ok()?,
            ClientItem::Ends(_) => all.push((client, 'Z', 0)).ok()?,
        }
        bytes = bytes.get(step.taken..)?;
    }
    Some(())
}

/// Adds the item for the end of a client's stream, if it has not ended before.
fn of_end(clients: &mut Clients, client: u32, all: &mut Vec<Brought>) -> Option<()> {
    match clients.end(client) {
        Some(End::Cut) => all.push((client, 'C', 0)).ok(),
        Some(_) => all.push((client, 'E', 0)).ok(),
        None => Some(()),
    }
}

/// Returns the items of these frames, and then the ends of the clients that are still connected.
fn of_frames(alloc: Global, mut input: &[u8]) -> Option<Vec<Brought>> {
    let mut clients = Clients::new(alloc);
    let mut all = Vec::new(alloc);
    'frames: for _ in 0..input.len() {
        let Some((head, rest)) = input.split_first_chunk::<8>() else {
            break;
        };
        input = rest;
        match FrameHead::from_bytes(head) {
            FrameHead::Bytes { client, count } => {
                let count = count as usize;
                of_frame(&mut clients, client, input.get(..count)?, &mut all)?;
                input = input.get(count..)?;
            }
            FrameHead::Last(client) => of_end(&mut clients, client, &mut all)?,
            FrameHead::Flush => all.push((0, 'N', 0)).ok()?,
            FrameHead::Unknown => break,
        }
    }
    'left: for _ in 0..3 {
        if let Some(client) = clients.first() {
            of_end(&mut clients, client, &mut all)?;
        }
    }
    Some(all)
}

/// A test of frames: its name, the frames, and their items.
struct Row {
    name: &'static str,
    frames: &'static [u8],
    brought: &'static [Brought],
}

/// The tests.
const ROWS: [Row; 6] = [
    Row {
        name: "two records in one frame, and the end",
        frames: &[
            1, 0, 0, 0, 11, 0, 0, 0, 1, 0, 0, 0, 7, 2, 0, 0, 0, 8, 9, 1, 0, 0, 0, 0, 0, 0, 0,
        ],
        brought: &[(1, 'B', 1), (1, 'B', 2), (1, 'E', 0)],
    },
    Row {
        name: "a record in three frames, with another client's between them: the order is that of the last bytes",
        frames: &[
            1, 0, 0, 0, 2, 0, 0, 0, 3, 0, 2, 0, 0, 0, 5, 0, 0, 0, 1, 0, 0, 0, 7, 1, 0, 0, 0, 4, 0,
            0, 0, 0, 0, 7, 8, 1, 0, 0, 0, 1, 0, 0, 0, 9,
        ],
        brought: &[(2, 'B', 1), (1, 'B', 3), (1, 'E', 0), (2, 'E', 0)],
    },
    Row {
        name: "a cut record, and the number again",
        frames: &[
            3, 0, 0, 0, 5, 0, 0, 0, 2, 0, 0, 0, 7, 3, 0, 0, 0, 0, 0, 0, 0, 3, 0, 0, 0, 5, 0, 0, 0,
            1, 0, 0, 0, 7, 3, 0, 0, 0, 0, 0, 0, 0,
        ],
        brought: &[(3, 'C', 0), (3, 'B', 1), (3, 'E', 0)],
    },
    Row {
        name: "after a length of 0 nothing is read, and no second end comes",
        frames: &[
            1, 0, 0, 0, 9, 0, 0, 0, 0, 0, 0, 0, 1, 0, 0, 0, 7, 1, 0, 0, 0, 0, 0, 0, 0,
        ],
        brought: &[(1, 'Z', 0)],
    },
    Row {
        name: "a length above the limit, and another client that goes on",
        frames: &[
            1, 0, 0, 0, 5, 0, 0, 0, 1, 0, 64, 0, 7, 2, 0, 0, 0, 5, 0, 0, 0, 1, 0, 0, 0, 7,
        ],
        brought: &[(1, 'L', 0), (2, 'B', 1), (2, 'E', 0)],
    },
    Row {
        name: "now, and a frame that says nothing",
        frames: &[
            255, 255, 255, 255, 0, 0, 0, 0, 1, 0, 0, 0, 5, 0, 0, 0, 1, 0, 0, 0, 7, 255, 255, 255,
            255, 1, 0, 0, 0, 7, 2, 0, 0, 0, 5, 0, 0, 0, 1, 0, 0, 0, 7,
        ],
        brought: &[(0, 'N', 0), (1, 'B', 1), (1, 'E', 0)],
    },
];

#[test]
fn frames_of_many_clients(rt: HostRuntime) {
    let alloc = rt.alloc();
    'rows: for row in &ROWS {
        let found = of_frames(alloc, row.frames);
        expect(
            &rt,
            row.name,
            found.is_some_and(|all| all.as_slice() == row.brought),
        );
    }
}
