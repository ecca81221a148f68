//! Frames in streams at every pace, and what no clause says of them.

use std::alloc::Global;
use std::io::{self, Read};
use typst_fakes::streams::{Full, PACES, Pace, Reader, Room, Writer};
use typst_protocol::frames::{End, Frame, FrameReader, write_frame};

/// Whether the stream has these bodies, and ends so, twice.
fn has(alloc: Global, stream: Reader<'_>, bodies: &[&[u8]], end: End) -> Option<bool> {
    let mut frames = FrameReader::new(alloc, stream).ok()?;
    let mut body = Vec::new(alloc);
    for wanted in bodies {
        if frames.read_frame(&mut body) != Ok(Frame::Body) || body.as_slice() != *wanted {
            return Some(false);
        }
    }
    Some(frames.read_frame(&mut body) == Err(end) && frames.read_frame(&mut body) == Err(end))
}

/// A stream with the bodies that it has, and how it ends after them: `NotRead` where it fails there.
type Row<'a> = (&'a [u8], &'a [&'a [u8]], End);

static ROWS: [Row<'static>; 33] = [
    (b"", &[], End::Clean),
    (b"Content-Length: 0\r\n\r\n", &[b""], End::Clean),
    (b"Content-Length: 2\r\n\r\n{}", &[b"{}"], End::Clean),
    (
        b"Content-Length: 2\r\n\r\n{}Content-Length: 3\r\n\r\n\r\n\r",
        &[b"{}", b"\r\n\r"],
        End::Clean,
    ),
    (b"content-LENGTH:2\r\n\r\n{}", &[b"{}"], End::Clean),
    (b"Content-Length:\t 2 \t\r\n\r\n{}", &[b"{}"], End::Clean),
    (b"Content-Length: 002\r\n\r\n{}", &[b"{}"], End::Clean),
    (
        b"Content-Type: application/vscode-jsonrpc; charset=utf-8\r\nContent-Length: 2\r\n\r\n{}",
        &[b"{}"],
        End::Clean,
    ),
    (
        b"Content-Length: 2\r\nContent-Type: x\r\n\r\n{}",
        &[b"{}"],
        End::Clean,
    ),
    (
        b"Content-Length: 2\r\nContent-Length: 2\r\n\r\n{}",
        &[b"{}"],
        End::Clean,
    ),
    (b":\r\nContent-Length: 2\r\n\r\n{}", &[b"{}"], End::Clean),
    (
        b"Content-Length: 2\r\nContent-Length: 3\r\n\r\n{}",
        &[],
        End::Malformed,
    ),
    (b"\r\n{}", &[], End::Malformed),
    (b"Content-Type: x\r\n\r\n{}", &[], End::Malformed),
    (b"Content-Length: 2\r\n\r\n{}\r\n", &[b"{}"], End::Malformed),
    (b"Content-Length:\r\n\r\n", &[], End::Malformed),
    (b"Content-Length: \r\n\r\n", &[], End::Malformed),
    (b"Content-Length: +2\r\n\r\n{}", &[], End::Malformed),
    (b"Content-Length: -2\r\n\r\n{}", &[], End::Malformed),
    (b"Content-Length: 2 0\r\n\r\n{}", &[], End::Malformed),
    (b"Content-Length: 0x2\r\n\r\n{}", &[], End::Malformed),
    (b"Content-Length : 2\r\n\r\n{}", &[], End::Malformed),
    (
        b"Content-Length: 18446744073709551616\r\n\r\n{}",
        &[],
        End::Malformed,
    ),
    (b"Content-Length 2\r\n", &[], End::Malformed),
    (b"Content-Length: 2\n\n{}", &[], End::CutOff),
    (b"Content-Length: 2", &[], End::CutOff),
    (b"Content-Length: 2\r\n", &[], End::CutOff),
    (b"Content-Length: 2\r\n\r\n{", &[], End::CutOff),
    (b"Content-Length: 2\r\n\r\n{}C", &[b"{}"], End::CutOff),
    (
        b"Content-Length: 18446744073709551615\r\n\r\n{}",
        &[],
        End::CutOff,
    ),
    (b"", &[], End::NotRead),
    (b"Content-Length: 2\r\n", &[], End::NotRead),
    (b"Content-Length: 2\r\n\r\n{", &[], End::NotRead),
];

/// However little is read at a time, and wherever that is interrupted.
#[test]
fn rows_at_each_pace(rt: HostRuntime) {
    for pace in PACES {
        for (bytes, bodies, end) in &ROWS {
            let stream = match end {
                End::NotRead => Reader::failing(bytes, pace),
                _ => Reader::ending(bytes, pace),
            };
            assert!(rt;
                has(rt.alloc(), stream, bodies, *end) == Some(true),
                "{pace:?}"
            );
        }
    }
}

const LONG_HEAD: &[u8] = b"Content-Length: 67108865\r\n\r\n";

const SHORT_FRAME: &[u8] = b"Content-Length: 2\r\n\r\n[]";

/// A body of one byte over the limit is skipped, the next one is read, and the stream ends.
#[test]
fn too_long(rt: HostRuntime) {
    let stream = LONG_HEAD
        .chain(io::repeat(0).take(67108865))
        .chain(SHORT_FRAME);
    let mut frames = FrameReader::new(rt.alloc(), stream).expect(&rt, "memory");
    let mut body = Vec::new(rt.alloc());
    assert!(rt; frames.read_frame(&mut body) == Ok(Frame::TooLong));
    assert!(rt; frames.read_frame(&mut body) == Ok(Frame::Body));
    assert!(rt; body.as_slice() == b"[]".as_slice());
    assert!(rt; frames.read_frame(&mut body) == Err(End::Clean));
}

/// Adds a line of a given number of bytes, which holds no length.
fn add_line(head: &mut Vec<u8>, bytes: usize) -> Option<()> {
    head.extend_from_slice(b"x:").ok()?;
    let after = head.len().saturating_add(bytes).saturating_sub(2);
    head.resize(after, b'y').ok()?;
    head.extend_from_slice(b"\r\n").ok()
}

/// How many bytes a line of a head has, how many such lines there are, and the stream's bodies and end.
type Head = (usize, usize, &'static [&'static [u8]], End);

/// As many bytes as a line may have, and one more; as many lines as a head may have, and one more.
static HEADS: [Head; 4] = [
    (1022, 1, &[b""], End::Clean),
    (1023, 1, &[], End::Malformed),
    (3, 62, &[b""], End::Clean),
    (3, 63, &[], End::Malformed),
];

/// Streams with such a head, and an empty body, have their bodies and end so.
#[test]
fn long_heads(rt: HostRuntime) {
    for (bytes, lines, bodies, end) in &HEADS {
        let mut frame = Vec::new(rt.alloc());
        for _ in 0..*lines {
            assert!(rt; add_line(&mut frame, *bytes).is_some());
        }
        assert!(rt;
            frame
                .extend_from_slice(b"Content-Length: 0\r\n\r\n")
                .is_ok()
        );
        let stream = Reader::ending(frame.as_slice(), Pace::Whole);
        assert!(rt; has(rt.alloc(), stream, bodies, *end) == Some(true));
    }
}

const WRITTEN: &[u8] = b"Content-Length: 11\r\n\r\n{\"id\": 100}";

/// Whether a frame is written where there's room for a given number of bytes, and else a beginning is.
fn writes(alloc: Global, bytes: usize, pace: Pace) -> bool {
    let mut room = Room::of(bytes, pace);
    room.full = Full::TakesNothing;
    let mut writer = Writer::new(alloc, room);
    let is_written = write_frame(&mut writer, b"{\"id\": 100}").is_ok();
    let wanted = &WRITTEN[..bytes.min(WRITTEN.len())];
    is_written == (bytes >= WRITTEN.len()) && writer.taken() == wanted
}

/// However little is written at a time.
#[test]
fn written(rt: HostRuntime) {
    for bytes in [0, 9, 17, 21, 30, 33, 50] {
        for pace in PACES {
            assert!(rt; writes(rt.alloc(), bytes, pace), "{bytes}");
        }
    }
}
