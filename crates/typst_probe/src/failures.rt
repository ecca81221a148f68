//! The word `failures`.

use std::alloc::{AllocError, Global};
use std::str;
use typst_edited::cli::Failure;
use typst_fakes::streams::{Flush, Full, Pace, Room, Writer};

/// All failures of the program `typst_syn`.
const FAILURES: [Failure; 7] = [
    Failure::Usage,
    Failure::NotRead,
    Failure::NotUtf8,
    Failure::BadRange,
    Failure::OutOfSpanNumbers,
    Failure::OutOfMemory,
    Failure::NotWritten,
];

/// A writer that passes nothing on.
const BROKEN: Room = Room {
    bytes: 1000,
    pace: Pace::Whole,
    flush: Flush::Fails,
    full: Full::Fails,
};

/// Prints the status and the line of each failure. The line is the same however little is written at a time; where
/// there is no room for it, or it isn't passed on, the status stays.
pub fn print(alloc: Global, printed: &mut String) -> Result<(), AllocError> {
    for failure in FAILURES {
        let (status, told) = reported(alloc, failure, Room::ample(Pace::Whole));
        write!(printed, "{status} ")?;
        printed.push_str(str::from_utf8(told.passed()).unwrap_or("not UTF-8\n"))?;
        if !is_reported(alloc, failure, status, told.passed()) {
            printed.push_str("not so in another room\n")?;
        }
    }
    Ok(())
}

/// Whether a failure has this status in other rooms, too, and tells this line where that can be passed on, and else
/// nothing.
fn is_reported(alloc: Global, failure: Failure, status: u8, line: &[u8]) -> bool {
    for (room, wanted) in [
        (Room::ample(Pace::Bytes), line),
        (Room::ample(Pace::Interrupted), line),
        (Room::of(3, Pace::Bytes), b""),
        (BROKEN, b""),
    ] {
        let (other, told) = reported(alloc, failure, room);
        if other != status || told.passed() != wanted {
            return false;
        }
    }
    true
}

/// The status of a failure, and what was told in this room.
fn reported(alloc: Global, failure: Failure, room: Room) -> (u8, Writer) {
    let mut errors = Writer::new(alloc, room);
    let status = failure.report(&mut errors);
    (status, errors)
}
