//! The loop over frames.
ghost use Rattle.std.specs.Prelude.{◌≡◌, IfNone, IfSome, None, OnOk, map};
ghost use Rattle.std.specs.Io.KnownBytes.{Appends};
ghost use Rattle.std.specs.String.{string_bytes};
ghost use Rattle.typst_protocol.specs.Stream.{Begins};
ghost use Rattle.typst_server.specs.Transcript.{AnswersFrame, Ends, IsStatus, Sends, Serves, Turns, frames_of, sent, told, warnings};

use crate::diagnostics::ShownErrors;
use crate::reply::{News, Reply};
use crate::server::Server;
use std::alloc::Global;
use std::io::{self, Read, Write};
use typst_protocol::frames::{End, Frame, FrameReader, write_frame};
use typst_protocol::{Loss, Unread, mend};

/// Why no more messages are answered.
#[derive(Drop)]
pub(crate) enum Ended {
    /// The input gives no more frames.
    Input(End),
    /// The client has said so, and the status is this one.
    Exit(u8),
    /// A reply couldn't be written.
    NotWritten,
    /// Memory was refused before the first message, or there were more messages than can be counted.
    GaveUp,
}

impl Ended {
    /// The status that is given then, where the server stands so.
    fn status(&self, server: &Server) -> u8
        ensures { IsStatus self.now server.now.standing.phase result }
    {
        match self {
            Ended::Input(End::Clean) => server.status(),
            Ended::Exit(status) => *status,
            _ => 1,
        }
    }
}

/// Answers the messages that `input` gives, one after the other, on `output`, and shows these errors of
/// documents. Gives the exit status.
pub fn serve<R: Read + Drop, W: Write>(
    alloc: Global,
    errors: ShownErrors,
    input: R,
    output: &mut W,
) -> u8
    ensures { IfSome (R.remaining input) (λ stream. Serves errors stream (W.contents output.old) (W.contents output.new) result) }
{
    let mut server = Server::new(alloc, errors);
    let ended = answer_all(alloc, &mut server, input, output);
    ended.status(&server)
}

/// Answers all messages.
fn answer_all<R: Read + Drop, W: Write>(
    alloc: Global,
    server: &mut Server,
    input: R,
    output: &mut W,
) -> Ended
    ensures { IfSome (R.remaining input) (λ stream. Ends server.old server.new stream (W.contents output.old) (W.contents output.new) result) }
{
    let Ok(mut frames) = FrameReader::new(alloc, input) else {
        return Ended::GaveUp;
    };
    let mut body = Vec::new(alloc);
    for _turn in 0..u64::MAX {
        if let Some(ended) = answer_next(server, &mut frames, &mut body, output) {
            return ended;
        }
    }
    Ended::GaveUp
}

/// Answers the next message, and says why there are no more.
fn answer_next<R: Read + Drop, W: Write>(
    server: &mut Server,
    frames: &mut FrameReader<R>,
    body: &mut Vec<u8>,
    output: &mut W,
) -> Option<Ended>
    requires { frames.old.end ≡ None }
    ensures open { IfNone result (frames.new.end ≡ None) }
    ensures turn { IfSome frames.old.left (λ stream. Turns server.old server.new stream (W.contents output.old) (W.contents output.new) frames.new.left result) }
{
    let frame = match frames.read_frame(body) {
        Ok(frame) => frame,
        Err(end) => return Some(Ended::Input(end)),
    };
    let reply = answer_frame(server, frame, body.as_mut_slice());
    send(&reply, output)
}

/// What is to be done about a frame that was read. Its body is mended before it is answered.
fn answer_frame(server: &mut Server, frame: Frame, body: &mut [u8]) -> Reply
    ensures { AnswersFrame server.old server.new frame body.old result }
{
    match frame {
        Frame::Body => {
            mend(body);
            server.answer(body)
        }
        Frame::TooLong => server.answer_unread(Unread::NotAMessage),
        Frame::OutOfMemory => server.answer_unread(Unread::OutOfMemory),
    }
}

/// Does what a reply says, and says why there are no more.
fn send<W: Write>(reply: &Reply, output: &mut W) -> Option<Ended>
    ensures { Sends reply.now (W.contents output.old) (W.contents output.new) result }
{
    if let Reply::Exit(status) = reply {
        return Some(Ended::Exit(*status));
    }
    match write_reply(reply, output) {
        Ok(()) => None,
        Err(_) => Some(Ended::NotWritten),
    }
}

/// Writes the bodies of a reply. After an error a beginning of what it sends was written.
fn write_reply<W: Write>(reply: &Reply, output: &mut W) -> io::Result<()>
    ensures whole { OnOk result (Appends (W.contents output.old) (W.contents output.new) (sent reply.now)) }
    ensures begins { Begins (W.contents output.old) (W.contents output.new) (sent reply.now) }
{
    match reply {
        Reply::Response(text) => write_frame(output, text.as_bytes()),
        Reply::Nameless(unread, news) => {
            write_frame(output, unread.response().as_bytes())?;
            write_news(news, output)
        }
        Reply::News(news) => write_news(news, output),
        Reply::Nothing | Reply::Exit(_) => Ok(()),
    }
}

/// Writes what is sent about documents.
fn write_news<W: Write>(news: &News, output: &mut W) -> io::Result<()>
    ensures whole { OnOk result (Appends (W.contents output.old) (W.contents output.new) (frames_of (told news.now))) }
    ensures begins { Begins (W.contents output.old) (W.contents output.new) (frames_of (told news.now)) }
{
    write_warning(news.lost, output)?;
    write_all(news.published.as_slice(), output)
}

/// Writes the warning of a loss, if there is one.
fn write_warning<W: Write>(lost: Option<Loss>, output: &mut W) -> io::Result<()>
    ensures whole { OnOk result (Appends (W.contents output.old) (W.contents output.new) (frames_of (warnings lost))) }
    ensures begins { Begins (W.contents output.old) (W.contents output.new) (frames_of (warnings lost)) }
{
    match lost {
        Some(loss) => write_frame(output, loss.warning().as_bytes()),
        None => Ok(()),
    }
}

/// Writes bodies.
fn write_all<W: Write>(bodies: &[String], output: &mut W) -> io::Result<()>
    ensures whole { OnOk result (Appends (W.contents output.old) (W.contents output.new) (frames_of (map string_bytes bodies.now))) }
    ensures begins { Begins (W.contents output.old) (W.contents output.new) (frames_of (map string_bytes bodies.now)) }
{
    for body in bodies {
        write_frame(output, body.as_bytes())?;
    }
    Ok(())
}
