//! The script as histories of `run_history`. In each, one of the three steps crashes, at each point in
//! time with each tear, and then the open after it at each of its own points, one after another.
//! The sessions are calls or streams. A session after all crashes and the server that the history
//! returns read what is kept.
ghost use Rattle.std.specs.Prelude.{◌≤◌};
ghost use Rattle.oa_model.specs.Limits.{max_group};

use crate::counts::{checkpoint_moments, groups_over, session_moments};
use crate::script::{
    BANK, END, TEARS, are_told, calls_of, expect, first, is_answered, library, new_disk, place_in,
    read_by, reads, replies, second,
};
use oa_frame::Framing;
use oa_history::{
    Asked, CrashHistory, CrashedSession, Step, Stop, StreamInput, Transcript, run_history,
};
use oa_typelib::Library;
use std::alloc::Global;
use std::rt::HostRuntime;

/// The form of the sessions: the number of requests per group, and the framing of a stream, or
/// calls.
#[derive(Clone, Copy)]
struct Way {
    group: usize,
    framing: Option<Framing>,
    ghost some: { 1 ≤ group },
    ghost few: { group ≤ max_group },
}

/// Adds a body in this framing.
fn put_line(alloc: Global, bytes: &mut Vec<u8>, line: &str, framing: Framing) -> Option<()> {
    match framing {
        Framing::HexLines => {
            bytes.extend_from_slice(line.as_bytes()).ok()?;
            bytes.extend_from_slice(b"\n").ok()
        }
        Framing::Records => {
            let body = hex::decode(alloc, line).ok()?;
            let length = u32::try_from(body.len()).ok()?;
            bytes.extend_from_slice(&length.to_le_bytes()).ok()?;
            bytes.extend_from_slice(body.as_slice()).ok()
        }
    }
}

/// Returns these lines in this framing.
fn bytes_of(alloc: Global, lines: &[&str], framing: Framing) -> Option<Vec<u8>> {
    let mut bytes = Vec::new(alloc);
    for line in lines {
        put_line(alloc, &mut bytes, *line, framing)?;
    }
    Some(bytes)
}

/// Returns the input of a session with these requests.
fn asked_of(alloc: Global, lines: &[&str], way: Way) -> Option<Asked> {
    match way.framing {
        Some(framing) => {
            let bytes = bytes_of(alloc, lines, framing)?;
            Some(Asked::Stream(StreamInput::new(bytes, framing, way.group)))
        }
        None => Some(Asked::Calls(calls_of(alloc, lines, way.group)?)),
    }
}

/// Adds a session with this input.
fn add(steps: &mut Vec<Step>, asked: Asked, stop: Stop) -> Option<()> {
    let session = CrashedSession {
        asked,
        moment: stop.moment,
        tear: stop.tear,
    };
    steps.push(Step::CrashedSession(session)).ok()
}

/// Adds one of the three steps of the script: a session, a checkpoint, and another session.
fn add_step(alloc: Global, steps: &mut Vec<Step>, step: usize, way: Way, stop: Stop) -> Option<()> {
    match step {
        0 => add(steps, asked_of(alloc, first(), way)?, stop),
        1 => steps.push(Step::Checkpoint(stop)).ok(),
        _ => add(steps, asked_of(alloc, second(), way)?, stop),
    }
}

/// Adds an open, which is a session without requests, with a crash at each of its points in time.
fn add_openings(alloc: Global, steps: &mut Vec<Step>, stop: Stop) -> Option<()> {
    for moment in 0..session_moments(0) {
        let again = Stop {
            moment,
            tear: stop.tear,
        };
        add(steps, Asked::Calls(Vec::new(alloc)), again)?;
    }
    Some(())
}

/// Adds the steps of the script up to the one that crashes, the opens, and a session that reads.
fn add_all(alloc: Global, steps: &mut Vec<Step>, step: usize, way: Way, stop: Stop) -> Option<()> {
    let end = Stop {
        moment: END,
        tear: stop.tear,
    };
    for before in 0..step {
        add_step(alloc, steps, before, way, end)?;
    }
    add_step(alloc, steps, step, way, stop)?;
    add_openings(alloc, steps, stop)?;
    add(steps, Asked::Calls(calls_of(alloc, reads(), 3)?), end)
}

/// The number of requests before each step, and the number by its end.
static BOUNDS: [(usize, usize); 3] = [(0, 5), (5, 5), (5, 7)];

/// Returns whether a step of the script in this form has the replies to the requests from number
/// `from` to before number `to`.
fn is_due(alloc: Global, heard: &Transcript, way: Way, from: usize, to: usize) -> Option<bool> {
    let framing = way.framing.unwrap_or(Framing::HexLines);
    let due = bytes_of(alloc, replies(from, to)?, framing)?;
    Some(is_answered(alloc, heard, to.saturating_sub(from), due.as_slice()))
}

/// Returns the number of kept requests. None if the step has other replies, or a group that was
/// committed before the crash is lost.
fn kept_of(
    alloc: Global,
    heard: &[Transcript],
    step: usize,
    way: Way,
    stop: Stop,
) -> Option<usize> {
    let (before, behind) = *BOUNDS.get(step)?;
    if is_due(alloc, heard.get(step)?, way, before, behind) != Some(true) {
        return None;
    }
    let over = usize::try_from(groups_over(stop.moment)).ok()?;
    let least = over.saturating_mul(way.group).saturating_add(before);
    place_in(alloc, heard.last()?, least.min(behind), behind)
}

/// Checks the replies of a history, its library, its table and the reads of its server. Returns the
/// last point in time of the step that crashed, and the number of opens: one for each step, and the
/// last one.
fn ends_of(
    alloc: Global,
    library: &Library,
    lived: &mut CrashHistory,
    step: usize,
    way: Way,
    stop: Stop,
) -> Option<(u64, u64)> {
    let kept = kept_of(alloc, lived.heard.as_slice(), step, way, stop)?;
    let _ = read_by(alloc, &mut lived.opened.server, kept, kept)?;
    if !are_told(library, lived.library.as_slice(), &lived.table, kept) {
        return None;
    }
    let heard = lived.heard.as_slice();
    let openings = (heard.len() as u64).saturating_add(1);
    Some((heard.get(step)?.disk.moments(), openings))
}

/// Runs one history. Returns the last point in time of the step that crashed, and the number of
/// opens.
fn history(alloc: Global, step: usize, way: Way, stop: Stop) -> Option<(u64, u64)> {
    let mut steps = Vec::new(alloc);
    add_all(alloc, &mut steps, step, way, stop)?;
    let library = library(alloc)?;
    let disk = new_disk(alloc)?;
    match run_history(alloc, &library, BANK, disk, steps.as_slice()) {
        Ok(mut lived) => ends_of(alloc, &library, &mut lived, step, way, stop),
        Err(_) => None,
    }
}

/// Crashes each of the three steps at each point in time with each tear. Returns the number of
/// crashes of each step, and of the opens in all histories.
fn histories(alloc: Global, way: Way) -> Option<[u64; 4]> {
    let mut tried = [0u64; 4];
    for tear in TEARS {
        for step in 0..3usize {
            let (end, _) = history(alloc, step, way, Stop { moment: END, tear })?;
            for moment in 0..end.saturating_add(1) {
                let (_, openings) = history(alloc, step, way, Stop { moment, tear })?;
                tried[step] = tried[step].saturating_add(1);
                tried[3] = tried[3].saturating_add(openings);
            }
        }
    }
    Some(tried)
}

/// Returns the expected counts for sessions of this many groups, with seven tears. A history has
/// three opens if the first session crashes, four if the checkpoint does, and five if the second
/// session does. In each case it also has the opens that crash.
fn due(first: u16, second: u16) -> [u64; 4] {
    let (one, between, two) = (
        7 * session_moments(first),
        7 * checkpoint_moments(),
        7 * session_moments(second),
    );
    let stopped = session_moments(0);
    let openings = 3 * one + 4 * between + 5 * two + (one + between + two) * stopped;
    [one, between, two, openings]
}

/// The names of the counts.
const COUNTS: &str =
    "stops of the first session, of the checkpoint, of the second session, and openings";

/// The sessions have five groups and two.
#[test]
fn calls_in_groups_of_1(rt: HostRuntime) {
    let way = Way {
        group: 1,
        framing: None,
    };
    expect(&rt, COUNTS, histories(rt.alloc(), way), due(5, 2));
}

/// The sessions have two groups and one.
#[test]
fn calls_in_groups_of_3(rt: HostRuntime) {
    let way = Way {
        group: 3,
        framing: None,
    };
    expect(&rt, COUNTS, histories(rt.alloc(), way), due(2, 1));
}

#[test]
fn lines_in_groups_of_1(rt: HostRuntime) {
    let way = Way {
        group: 1,
        framing: Some(Framing::HexLines),
    };
    expect(&rt, COUNTS, histories(rt.alloc(), way), due(5, 2));
}

#[test]
fn records_in_groups_of_3(rt: HostRuntime) {
    let way = Way {
        group: 3,
        framing: Some(Framing::Records),
    };
    expect(&rt, COUNTS, histories(rt.alloc(), way), due(2, 1));
}
