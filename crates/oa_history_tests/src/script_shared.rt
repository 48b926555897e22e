//! The script as histories of `run_history` with many clients, which make the requests of the two
//! sessions in turn. Each record comes in two frames, and the first frame of the next client is
//! between them. One of the three steps crashes, at each point in time with each tear. The server
//! that the history returns reads what is kept.
ghost use Rattle.std.specs.Prelude.{◌≤◌, ◌<◌};
ghost use Rattle.oa_model.specs.Limits.{max_group};

use crate::counts::{checkpoint_moments, groups_over, session_moments};
use crate::script::{
    BANK, END, TEARS, are_told, expect, first, library, new_disk, read_by, replies, second,
};
use oa_history::{
    Asked, CrashHistory, CrashedSession, Replies, SharedInput, Step, Stop, Transcript, run_history,
};
use oa_server::SessionEnd;
use oa_typelib::Library;
use std::alloc::Global;
use std::rt::HostRuntime;

/// The number of clients, the number of requests per group, and whether *now* follows each request.
#[derive(Clone, Copy)]
struct Way {
    clients: u32,
    group: usize,
    now: bool,
    ghost two: { 2 ≤ clients },
    ghost sixteen: { clients ≤ 16 },
    ghost some: { 1 ≤ group },
    ghost few: { group ≤ max_group },
}

/// The client number of a frame for all clients.
const NOW: u32 = 0xffff_ffff;

/// Adds a frame.
fn put_frame(bytes: &mut Vec<u8>, client: u32, part: &[u8]) -> Option<()> {
    let length = u32::try_from(part.len()).ok()?;
    bytes.extend_from_slice(&client.to_le_bytes()).ok()?;
    bytes.extend_from_slice(&length.to_le_bytes()).ok()?;
    bytes.extend_from_slice(part).ok()
}

/// Returns the record of a line of hexadecimal digits.
fn record_of(alloc: Global, line: &str) -> Option<Vec<u8>> {
    let body = hex::decode(alloc, line).ok()?;
    let length = u32::try_from(body.len()).ok()?;
    let mut record = Vec::new(alloc);
    record.extend_from_slice(&length.to_le_bytes()).ok()?;
    record.extend_from_slice(body.as_slice()).ok()?;
    Some(record)
}

/// Returns the client that makes request number `number`, counted from 0.
fn client_of(way: Way, number: usize) -> Option<u32> {
    let number = u32::try_from(number).ok()?;
    Some((number % way.clients).saturating_add(1))
}

/// Adds the first bytes of the record of that line, if there is one.
fn put_first(
    alloc: Global,
    bytes: &mut Vec<u8>,
    lines: &[&str],
    way: Way,
    number: usize,
) -> Option<()> {
    match lines.get(number) {
        Some(line) => {
            let record = record_of(alloc, *line)?;
            put_frame(bytes, client_of(way, number)?, record.as_slice().get(..7)?)
        }
        None => Some(()),
    }
}

/// Returns the frames of a session with these requests.
fn frames_of(alloc: Global, lines: &[&str], way: Way) -> Option<Vec<u8>> {
    let mut bytes = Vec::new(alloc);
    put_first(alloc, &mut bytes, lines, way, 0)?;
    let mut number = 0usize;
    for line in lines {
        put_first(alloc, &mut bytes, lines, way, number.saturating_add(1))?;
        let record = record_of(alloc, *line)?;
        put_frame(
            &mut bytes,
            client_of(way, number)?,
            record.as_slice().get(7..)?,
        )?;
        if way.now {
            put_frame(&mut bytes, NOW, b"")?;
        }
        number = number.saturating_add(1);
    }
    Some(bytes)
}

/// Returns the frames that such a session sends: each reply to the client that made the request,
/// and at the end a last frame to each of these clients.
fn due_frames(alloc: Global, lines: &[&str], way: Way) -> Option<Vec<u8>> {
    let mut bytes = Vec::new(alloc);
    let mut number = 0usize;
    for line in lines {
        let record = record_of(alloc, *line)?;
        put_frame(&mut bytes, client_of(way, number)?, record.as_slice())?;
        number = number.saturating_add(1);
    }
    for client in 0..way.clients {
        if (client as usize) < lines.len() {
            put_frame(&mut bytes, client.saturating_add(1), b"")?;
        }
    }
    Some(bytes)
}

/// Adds a session with these requests.
fn add(alloc: Global, steps: &mut Vec<Step>, lines: &[&str], way: Way, stop: Stop) -> Option<()> {
    let session = CrashedSession {
        asked: Asked::Frames(SharedInput::new(frames_of(alloc, lines, way)?, way.group)),
        moment: stop.moment,
        tear: stop.tear,
    };
    steps.push(Step::CrashedSession(session)).ok()
}

/// Adds one of the three steps of the script: a session, a checkpoint, and another session.
fn add_step(alloc: Global, steps: &mut Vec<Step>, step: usize, way: Way, stop: Stop) -> Option<()> {
    match step {
        0 => add(alloc, steps, first(), way, stop),
        1 => steps.push(Step::Checkpoint(stop)).ok(),
        _ => add(alloc, steps, second(), way, stop),
    }
}

/// Returns the steps of the script up to the one that crashes.
fn steps_to(alloc: Global, step: usize, way: Way, stop: Stop) -> Option<Vec<Step>> {
    let end = Stop {
        moment: END,
        tear: stop.tear,
    };
    let mut steps = Vec::new(alloc);
    for before in 0..step {
        add_step(alloc, &mut steps, before, way, end)?;
    }
    add_step(alloc, &mut steps, step, way, stop)?;
    Some(steps)
}

/// The number of requests before each step, and the number by its end.
static BOUNDS: [(usize, usize); 3] = [(0, 5), (5, 5), (5, 7)];

/// Returns the last point in time of a step whose replies are these frames, or `None` if it has
/// other replies.
fn end_of(heard: &Transcript, due: &[u8]) -> Option<u64> {
    match &heard.replies {
        Replies::Frames(written) => {
            if written.output.bytes() == due && written.why == SessionEnd::Closed {
                Some(heard.disk.moments())
            } else {
                None
            }
        }
        Replies::Calls(answers) => {
            if answers.is_empty() {
                Some(heard.disk.moments())
            } else {
                None
            }
        }
        Replies::Stream(_) => None,
    }
}

/// Returns the number of requests that must be kept after a crash at this point.
fn least_of(way: Way, stop: Stop, before: usize, behind: usize) -> Option<usize> {
    let over = usize::try_from(groups_over(stop.moment)).ok()?;
    let each = if way.now { 1 } else { way.group };
    let least = over.saturating_mul(each).saturating_add(before);
    Some(least.min(behind))
}

/// Checks the replies of a history, its library, its table and the reads of its server. Returns the
/// last point in time of the step that crashed.
fn end_in(
    alloc: Global,
    library: &Library,
    lived: &mut CrashHistory,
    step: usize,
    way: Way,
    stop: Stop,
) -> Option<u64> {
    let (before, behind) = *BOUNDS.get(step)?;
    let due = due_frames(alloc, replies(before, behind)?, way)?;
    let end = end_of(lived.heard.get(step)?, due.as_slice())?;
    let least = least_of(way, stop, before, behind)?;
    let kept = read_by(alloc, &mut lived.opened.server, least, behind)?;
    if are_told(library, lived.library.as_slice(), &lived.table, kept) {
        Some(end)
    } else {
        None
    }
}

/// Runs one history. Returns the last point in time of the step that crashed.
fn history(alloc: Global, step: usize, way: Way, stop: Stop) -> Option<u64> {
    let steps = steps_to(alloc, step, way, stop)?;
    let library = library(alloc)?;
    let disk = new_disk(alloc)?;
    match run_history(alloc, &library, BANK, disk, steps.as_slice()) {
        Ok(mut lived) => end_in(alloc, &library, &mut lived, step, way, stop),
        Err(_) => None,
    }
}

/// Crashes each of the three steps at each point in time with each tear. Returns the number of
/// crashes of each step, and of all.
fn histories(alloc: Global, way: Way) -> Option<[u64; 4]> {
    let mut tried = [0u64; 4];
    for tear in TEARS {
        for step in 0..3usize {
            let end = history(alloc, step, way, Stop { moment: END, tear })?;
            for moment in 0..end.saturating_add(1) {
                let _ = history(alloc, step, way, Stop { moment, tear })?;
                tried[step] = tried[step].saturating_add(1);
                tried[3] = tried[3].saturating_add(1);
            }
        }
    }
    Some(tried)
}

/// Returns the expected counts for sessions of this many groups, with seven tears.
fn due(first: u16, second: u16) -> [u64; 4] {
    let (one, between, two) = (
        7 * session_moments(first),
        7 * checkpoint_moments(),
        7 * session_moments(second),
    );
    [one, between, two, one + between + two]
}

/// The names of the counts.
const COUNTS: &str = "stops of the first session, of the checkpoint, of the second session, of all";

/// The sessions have five groups and two.
#[test]
fn two_clients_in_groups_of_1(rt: HostRuntime) {
    let way = Way {
        clients: 2,
        group: 1,
        now: false,
    };
    expect(&rt, COUNTS, histories(rt.alloc(), way), due(5, 2));
}

/// The first session has two groups, the second of which also contains the end of a client; the
/// second session has one.
#[test]
fn three_clients_in_groups_of_3(rt: HostRuntime) {
    let way = Way {
        clients: 3,
        group: 3,
        now: false,
    };
    expect(&rt, COUNTS, histories(rt.alloc(), way), due(2, 1));
}

/// Each *now* ends a group.
#[test]
fn sixteen_clients_and_now(rt: HostRuntime) {
    let way = Way {
        clients: 16,
        group: 1_024,
        now: true,
    };
    expect(&rt, COUNTS, histories(rt.alloc(), way), due(5, 2));
}
