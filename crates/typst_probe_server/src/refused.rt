//! The word `session-refused`: a session of the language server in which one request for memory is refused.
//!
//! A row's text has three parts, between empty lines. The first tells how each subject stands
//! before it, as `SUBJECT STAND` a line. The second has the rules of what may be heard about a message, as
//! `STANDS EFFECTS HEARD NEXT` a line, with `once` after it where what is heard tells that memory was
//! refused, which it is once. The third has the messages, as `EFFECT SUBJECT BODY` a line.

use crate::exchange::{Session, exchange, told};
use crate::sessions::push_frame;
use std::alloc::{AllocError, Global};

/// What is answered where memory is refused for the identifier.
const NAMELESS: &str =
    "{\"jsonrpc\":\"2.0\",\"id\":null,\"error\":{\"code\":-32603,\"message\":\"out of memory\"}}";

/// A message that a client sends.
#[derive(Clone, Copy)]
struct Message<'a> {
    /// What it does.
    effect: &'a str,
    /// What it is about.
    subject: &'a str,
    body: &'a str,
}

impl<'a> Message<'a> {
    /// The message of a line.
    fn of(line: &'a str) -> Message<'a> {
        let (effect, rest) = line.split_once(' ').unwrap_or((line, ""));
        let (subject, body) = rest.split_once(' ').unwrap_or((rest, ""));
        Message {
            effect,
            subject,
            body,
        }
    }

    /// The number of the message whose answer is as good as that to this one: all tokens, which are asked for
    /// after their changes, are as good as those, and what begins or ends a session, as it does twice, does
    /// so the second time where the first was refused.
    fn substitute(self, number: usize) -> usize {
        match self.effect {
            "begins" | "ends" => number.saturating_sub(1),
            "looks" if self.body.contains("/delta\"") => number.saturating_add(1),
            _ => number,
        }
    }
}

/// What a row's text has.
#[derive(Clone, Copy)]
struct Script<'a> {
    subjects: &'a str,
    rules: &'a str,
    messages: &'a str,
}

impl<'a> Script<'a> {
    /// The parts of a text.
    fn of(text: &'a str) -> Script<'a> {
        let (subjects, rest) = text.split_once("\n\n").unwrap_or(("", text));
        let (rules, messages) = rest.split_once("\n\n").unwrap_or(("", rest));
        Script {
            subjects,
            rules,
            messages,
        }
    }

    /// Whether a session may go as it went, where it goes as another one without a refusal.
    fn allows(self, alloc: Global, clean: &Session, session: &Session) -> Result<bool, AllocError> {
        let mut client = Client::new(alloc, self.subjects, self.rules)?;
        Ok(client.goes_on(clean, session, self.messages))
    }

    /// Whether a session of these frames goes on as it may where one request for memory is refused. Two others
    /// go the same way before it: none of them was refused anything then, as only one request is. Otherwise this is
    /// refused.
    fn goes_on(self, alloc: Global, frames: &[String]) -> Result<bool, AllocError> {
        let clean = exchange(alloc, frames)?;
        if !clean.is_same(&exchange(alloc, frames)?) {
            return Err(AllocError);
        }
        let session = exchange(alloc, frames)?;
        let is_allowed = session.gave_up() || self.allows(alloc, &clean, &session)?;
        Ok(is_allowed && self.allows(alloc, &clean, &clean)?)
    }
}

/// Whether a session goes on as it may where one request for memory is refused.
pub fn answer(alloc: Global, text: &str) -> Result<String, AllocError> {
    let script = Script::of(text);
    let frames = frames(alloc, script.messages)?;
    let told = if script.goes_on(alloc, frames.as_slice())? {
        "on"
    } else {
        "wrong"
    };
    format!(in alloc; "the session goes {told}\n")
}

/// The frames of the messages of these lines.
fn frames(alloc: Global, messages: &str) -> Result<Vec<String>, AllocError> {
    let mut frames = Vec::new(alloc);
    for line in messages.split('\n') {
        let mut frame = String::new(alloc);
        push_frame(&mut frame, Message::of(line).body)?;
        frames.push(frame)?;
    }
    Ok(frames)
}

/// What a message may be about.
#[derive(Clone, Copy)]
struct Subject<'a> {
    name: &'a str,
    /// How it stands, as the client knows.
    stand: &'a str,
}

impl<'a> Subject<'a> {
    /// Goes on as the first rule says that is about what is heard. Tells whether that is that memory was
    /// refused; nothing where no rule is about it.
    fn go_on(&mut self, rules: &'a str, effect: &str, heard: &str) -> Option<bool> {
        for rule in rules.split('\n') {
            if let Some((next, is_once)) = next(rule, self.stand, effect, heard) {
                if next != "=" {
                    self.stand = next;
                }
                return Some(is_once);
            }
        }
        None
    }
}

/// What a rule says of what is heard where a subject stands so: how it stands next, `=` for as it does, and
/// whether that is heard once. Nothing where the rule isn't about that.
fn next<'a>(rule: &'a str, stand: &str, effect: &str, heard: &str) -> Option<(&'a str, bool)> {
    let mut words = rule.split(' ');
    let is_about_stand = is_among(words.next()?, stand);
    let is_about_effect = is_among(words.next()?, effect);
    if is_about_stand && is_about_effect && words.next()? == heard {
        return Some((words.next()?, words.next().is_some()));
    }
    None
}

/// Whether a word is one of those between bars, or all are.
fn is_among(words: &str, word: &str) -> bool {
    for one in words.split('|') {
        if one == word || one == "*" {
            return true;
        }
    }
    false
}

/// What a client knows.
#[derive(Drop)]
struct Client<'a> {
    rules: &'a str,
    subjects: Vec<Subject<'a>>,
    /// Whether it has heard that memory was refused.
    was_refused: bool,
}

impl<'a> Client<'a> {
    /// A client before a session.
    fn new(alloc: Global, subjects: &'a str, rules: &'a str) -> Result<Client<'a>, AllocError> {
        let mut all = Vec::new(alloc);
        for line in subjects.split('\n') {
            let (name, stand) = line.split_once(' ').unwrap_or((line, ""));
            all.push(Subject { name, stand })?;
        }
        Ok(Client {
            rules,
            subjects: all,
            was_refused: false,
        })
    }

    /// Whether a session goes as it may where one request for memory is refused: it begins and ends, and nothing
    /// is written before the first message and after the last.
    fn goes_on(&mut self, clean: &Session, session: &Session, messages: &str) -> bool {
        let mut number = 0usize;
        for line in messages.split('\n') {
            let message = Message::of(line);
            if !self.hears(message, heard(clean, session, number, message)) {
                return false;
            }
            number = number.saturating_add(1);
        }
        for subject in &self.subjects {
            if subject.stand == "before" {
                return false;
            }
        }
        let is_framed = session.is_silent(0) && session.is_silent(number.saturating_add(1));
        is_framed && session.status == 0
    }

    /// Whether something may be heard about a message. What is heard without an identifier may be about each
    /// subject.
    fn hears(&mut self, message: Message<'_>, heard: &str) -> bool {
        let rules = self.rules;
        let (mut is_known, mut is_refused) = (false, false);
        for place in 0..self.subjects.len() {
            let Some(subject) = self.subjects.get_mut(place) else {
                return false;
            };
            if subject.name == message.subject || matches!(heard, "nameless" | "all-lost") {
                let Some(is_once) = subject.go_on(rules, message.effect, heard) else {
                    return false;
                };
                is_known = true;
                is_refused = is_refused || is_once;
            }
        }
        let is_again = is_refused && self.was_refused;
        self.was_refused = self.was_refused || is_refused;
        is_known && !is_again
    }
}

/// What is heard about the message of a number: `nothing`, what is `expected`, that memory was `refused` for
/// it, or for one that isn't named (`nameless`), with the warning that all documents are lost (`all-lost`), that
/// the person is `warned` of the loss of one, that the text of a document is `lost`, that it is `not-open`, that
/// it isn't the time for a request (`not-now`), or what mustn't be heard (`other`).
fn heard(clean: &Session, session: &Session, number: usize, message: Message<'_>) -> &'static str {
    let Some(body) = session.body(number) else {
        return "other";
    };
    if body.is_empty() {
        return "nothing";
    }
    let is_nameless = body == NAMELESS;
    if session.tells_loss(number) {
        return if is_nameless { "all-lost" } else { "warned" };
    }
    if is_nameless {
        return "nameless";
    }
    let tells = told(body);
    let is_expected = tells == told(clean.body(number).unwrap_or(""))
        || tells == told(clean.body(message.substitute(number)).unwrap_or(""));
    match message.effect {
        "begins" | "ends" | "looks" => response(number, body, is_expected).unwrap_or("other"),
        _ if is_expected => "expected",
        _ => "other",
    }
}

/// What is heard in the response to the request of a number: an error, or what is expected.
fn response(number: usize, body: &str, is_expected: bool) -> Option<&'static str> {
    let named = body.strip_prefix("{\"jsonrpc\":\"2.0\",\"id\":")?;
    let (id, rest) = named.split_once(',')?;
    if id.parse::<usize>() != Ok(number) {
        return None;
    }
    let Some(error) = rest.strip_prefix("\"error\":{\"code\":") else {
        return is_expected.then_some("expected");
    };
    let (code, _) = error.split_once(',')?;
    Some(match code {
        "-32603" => "refused",
        "-32801" => "lost",
        "-32602" => "not-open",
        "-32600" => "not-now",
        _ => "other",
    })
}
