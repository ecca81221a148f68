//! The words `session`, `session-all-errors` and `session-cut`. A row's text is what a client sends to the
//! language server, a message a line.

use std::alloc::{AllocError, Global};
use std::str;
use typst_fakes::streams::{PACES, Pace, Reader, Room, Writer};
use typst_server::{ShownErrors, serve};

/// What stands before the length in a frame's head.
pub const HEAD: &str = "Content-Length: ";

/// The errors that are shown in a session that is cut off.
const SHOWN: ShownErrors = ShownErrors::WithoutCascades;

/// Writes a message as a frame.
pub fn push_frame(sent: &mut String, message: &str) -> Result<(), AllocError> {
    let length = message.len();
    write!(sent, "{HEAD}{length}\r\n\r\n{message}")
}

/// The body of a frame, without the first word of its head; nothing where it has another length.
pub fn body_of(frame: &str) -> Option<&str> {
    let (length, body) = frame.split_once("\r\n\r\n")?;
    if length.parse() == Ok(body.len()) {
        Some(body)
    } else {
        None
    }
}

/// How a session ended.
#[derive(Drop)]
struct Session {
    status: u8,
    output: Writer,
}

impl Session {
    /// What is answered to a reader, by a writer with this room.
    fn of(alloc: Global, errors: ShownErrors, input: Reader<'_>, room: Room) -> Session {
        let mut output = Writer::new(alloc, room);
        let status = serve(alloc, errors, input, &mut output);
        Session { status, output }
    }

    /// What is answered to these bytes, which are sent and answered at a pace.
    fn at_pace(alloc: Global, errors: ShownErrors, sent: &[u8], pace: Pace) -> Session {
        let input = Reader::ending(sent, pace);
        Session::of(alloc, errors, input, Room::ample(pace))
    }

    /// Whether it wrote what another one wrote, and ended as that did.
    fn is_same(&self, other: &Session) -> bool {
        self.status == other.status && self.output.taken() == other.output.taken()
    }

    /// What it wrote, as text.
    fn text(&self) -> &str {
        str::from_utf8(self.output.taken()).unwrap_or("")
    }
}

/// Prints the body of a frame.
fn print_body(printed: &mut String, frame: &str) -> Result<(), AllocError> {
    let body = body_of(frame).unwrap_or("no frame");
    writeln!(printed, "{body}")
}

/// What a session answers, however little is read or written at a time, and wherever that is interrupted: a
/// line for each message after the answer to the first, and one for a status that isn't 0.
pub fn answer(alloc: Global, errors: ShownErrors, text: &str) -> Result<String, AllocError> {
    let sent = frames(alloc, text)?;
    let session = Session::at_pace(alloc, errors, sent.as_bytes(), Pace::Whole);
    match unlike_pace(alloc, errors, sent.as_bytes(), &session) {
        Some(pace) => format!(in alloc; "other answers at {pace:?}\n"),
        None => printed(alloc, &session),
    }
}

/// The frames of messages.
fn frames(alloc: Global, messages: &str) -> Result<String, AllocError> {
    let mut sent = String::new(alloc);
    for message in messages.split('\n') {
        push_frame(&mut sent, message)?;
    }
    Ok(sent)
}

/// The first pace at which a session isn't as another one.
fn unlike_pace(alloc: Global, errors: ShownErrors, sent: &[u8], session: &Session) -> Option<Pace> {
    for pace in PACES {
        if !Session::at_pace(alloc, errors, sent, pace).is_same(session) {
            return Some(pace);
        }
    }
    None
}

/// A line for each answer of a session after the first, and one for a status that isn't 0.
fn printed(alloc: Global, session: &Session) -> Result<String, AllocError> {
    let mut printed = String::new(alloc);
    for frame in session.text().split(HEAD).skip(2) {
        print_body(&mut printed, frame)?;
    }
    if session.status != 0 {
        let status = session.status;
        writeln!(printed, "status {status}")?;
    }
    Ok(printed)
}

/// What a session answers last that ends without being told to. Wherever its input ends or fails, it ends with
/// status 1 and with the answers to the messages that came whole; wherever its output fails, with status 1 and
/// with all the answers up to there. The first place where it doesn't has a line in place of that.
pub fn cut_answer(alloc: Global, text: &str) -> Result<String, AllocError> {
    let mut sent = String::new(alloc);
    for message in text.split('\n') {
        let start = sent.len();
        push_frame(&mut sent, message)?;
        if let Some(end) = unlike_cut(alloc, sent.as_bytes(), start) {
            return format!(in alloc; "other answers where it is cut off at {end}\n");
        }
    }
    let session = Session::at_pace(alloc, SHOWN, sent.as_bytes(), Pace::Whole);
    match unlike_full(alloc, sent.as_bytes(), &session) {
        Some(room) => format!(in alloc; "other answers with room for {room}\n"),
        None => last(alloc, &session),
    }
}

/// The line of the last answer.
fn last(alloc: Global, session: &Session) -> Result<String, AllocError> {
    let mut printed = String::new(alloc);
    let (_, frame) = session.text().rsplit_once(HEAD).unwrap_or(("", ""));
    print_body(&mut printed, frame)?;
    Ok(printed)
}

/// The first place from the start of the last message on where a session that is cut off, or can't be read any
/// more, doesn't end with status 1 and the answers to the messages before.
fn unlike_cut(alloc: Global, sent: &[u8], start: usize) -> Option<usize> {
    let before = Session::at_pace(alloc, SHOWN, sent.get(..start).unwrap_or(sent), Pace::Whole);
    for end in start..sent.len() {
        let given = sent.get(..end).unwrap_or(sent);
        if before.status != 1 || !is_cut_off(alloc, given, &before) {
            return Some(end);
        }
    }
    None
}

/// Whether a session whose input ends, or fails, after these bytes is as another one.
fn is_cut_off(alloc: Global, given: &[u8], before: &Session) -> bool {
    let room = Room::ample(Pace::Whole);
    let failed = Session::of(alloc, SHOWN, Reader::failing(given, Pace::Whole), room);
    failed.is_same(before) && Session::at_pace(alloc, SHOWN, given, Pace::Whole).is_same(before)
}

/// The least room with which a session doesn't end with status 1 and with all the answers up to there.
fn unlike_full(alloc: Global, sent: &[u8], whole: &Session) -> Option<usize> {
    let answers = whole.output.taken();
    for room in 0..answers.len() {
        let input = Reader::ending(sent, Pace::Whole);
        let session = Session::of(alloc, SHOWN, input, Room::of(room, Pace::Whole));
        if session.status != 1 || answers.get(..room) != Some(session.output.taken()) {
            return Some(room);
        }
    }
    None
}
