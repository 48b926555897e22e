//! Paths that can be opened as disks, and the errors of the others. The tests of the program check
//! locks on files, and files whose reads fail.
use oa_disk::FileDisk;
use std::fs;
use std::io::{self, ErrorKind};
use std::rt::HostRuntime;

/// Returns the error of an open.
fn refusal(disk: io::Result<FileDisk>) -> Option<ErrorKind> {
    match disk {
        Ok(_) => None,
        Err(error) => Some(error.kind()),
    }
}

/// The path of a file that is created.
const THERE: &str = "oa_disk_there";

/// The path of a file that is too large to be created.
const LARGE: &str = "oa_disk_large";

/// A path, the size of the disk if it is created and not opened, and the error. A sync of
/// /proc/self/comm, a regular file, fails. A file that cannot be filled is removed again.
const PATHS: [(&str, Option<u64>, Option<ErrorKind>); 13] = [
    (THERE, Some(4), None),
    (THERE, None, None),
    (THERE, Some(4), Some(ErrorKind::AlreadyExists)),
    ("oa_disk_there/below", None, Some(ErrorKind::NotADirectory)),
    ("oa_disk_missing", None, Some(ErrorKind::NotFound)),
    ("oa_disk_missing/below", Some(4), Some(ErrorKind::NotFound)),
    (".", None, Some(ErrorKind::IsADirectory)),
    ("/dev/null", None, Some(ErrorKind::Unsupported)),
    ("/proc/self/comm", None, Some(ErrorKind::InvalidInput)),
    ("a\0b", None, Some(ErrorKind::InvalidInput)),
    ("a\0b", Some(4), Some(ErrorKind::InvalidInput)),
    (LARGE, Some(1 << 63), Some(ErrorKind::InvalidInput)),
    (LARGE, None, Some(ErrorKind::NotFound)),
];

/// Returns the first path with another result.
fn first_other(rt: &HostRuntime) -> Option<&'static str> {
    for (path, size, wanted) in PATHS {
        let disk = match size {
            Some(size) => FileDisk::create(rt, path, size),
            None => FileDisk::open(rt, path),
        };
        if refusal(disk) != wanted {
            return Some(path);
        }
    }
    None
}

#[test]
fn paths_that_are_disks_and_none(rt: HostRuntime) {
    let _ = fs::remove_file(&rt, THERE);
    let found = first_other(&rt);
    let is_removed = fs::remove_file(&rt, THERE).is_ok();
    assert_eq!(rt; (found, is_removed), (None, true));
}
