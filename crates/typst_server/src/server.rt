//! The server: what it holds between messages, and what it answers to each.
ghost use Rattle.std.specs.Prelude.{◌≡◌, codes, true, All, IfOk, MatchResult, None, Some, option_map};
ghost use Rattle.std.specs.String.{string_bytes};
ghost use Rattle.serde_json.specs.View.{view};
ghost use Rattle.typst_protocol.specs.Messages.{IsUnread};
ghost use Rattle.typst_protocol.specs.Methods.{methods, named};
ghost use Rattle.typst_protocol.specs.declared.message.Message.TheVariants as message;
ghost use Rattle.typst_server.specs.Answers.{IsAnswer, IsReplyTo, TakesEvent};
ghost use Rattle.typst_protocol.specs.Parameters as parameters;
ghost use Rattle.typst_protocol.specs.declared.method.Event.TheVariants as event;
ghost use Rattle.typst_protocol.specs.declared.refusal.Loss.TheVariants as loss;
ghost use Rattle.typst_server.specs.Made.{AnswersWith, IsOfTokens, IsLed, IsTaken, MayBeTaken, SendsOf, answer_of, standing_after};
ghost use Rattle.typst_server.specs.Left.{AreSame, AreUnknown, IsKnownAfter, IsLeftBy, IsTold, IsWarned, Leaves, loss_of};
ghost use Rattle.typst_server.specs.Phases.{Responds, allowed, begun, leads, shut, status_of};
ghost use Rattle.typst_server.specs.Results.{Gives, IsOf, Looks, Names, OfDocuments, Tells, said_of};
ghost use Rattle.typst_server.specs.Documents.{IsUnknown, KeepsOthers, found, is_known};
ghost use Rattle.typst_server.specs.Published.{AreNone, Empties, EmptiesAll, IsNewsReply, IsToldOf, Publishes};
ghost use Rattle.typst_server.specs.Sessions.{IsNew, LosesAll, LosesMeant};
ghost use Rattle.typst_server.specs.Tokens.{DropsSent, IsSentAfter, IsSentBy, KeepsTokens, SameSent};
ghost use Rattle.typst_server.specs.Tracked.{named_last};
ghost use Rattle.typst_server.specs.declared.reply.Reply.TheVariants as reply;
ghost use Rattle.typst_server.specs.declared.server.Effect.TheVariants as effects;
ghost use Rattle.typst_server.specs.declared.server.Phase.TheVariants as phase;

use crate::capabilities::capabilities;
use crate::diagnostics::{ShownErrors, publish, publish_none, report};
use crate::documents::Documents;
use crate::reply::{News, Reply};
use crate::requests::FoldingStyle;
use crate::tracked::{Fresh, Tracked};
use crate::{actions, links, naming, outline, requests, showing, tokens, typing, workspace};
use serde_json::Value;
use std::alloc::{AllocError, Global};
use typst_document::Document;
use typst_positions::Encoding;
use typst_protocol::{
    Event, Id, Loss, Message, Method, Notification, Params, Refusal, Request, Unread, failure,
    meant, read_json, success,
};

/// How far a session has come.
#[derive(Clone, Copy)]
enum Phase {
    /// `initialize` hasn't come yet.
    Fresh,
    /// Requests are answered.
    Running,
    /// `shutdown` has come.
    ShutDown,
}

/// Where a session stands, and what the client has asked for.
#[derive(Clone, Copy)]
struct Standing {
    phase: Phase,
    /// In what columns are counted.
    encoding: Encoding,
    /// Whether the client takes an outline as a tree.
    takes_trees: bool,
    /// How it folds.
    folding: FoldingStyle,
    /// Whether it asks for errors and warnings by itself, so that none are published.
    pulls: bool,
    /// Which errors are shown.
    errors: ShownErrors,
}

/// What changes in a session once the answer to a request is made.
#[derive(Drop)]
enum Effect<'a> {
    /// Nothing.
    Nothing,
    /// It stands there.
    Moves(Standing),
    /// These tokens of a document were sent.
    Sends(&'a str, Fresh),
}

/// The value that answers a request, as JSON, and what changes with it.
#[derive(Drop)]
struct Made<'a> {
    value: String,
    effect: Effect<'a>,
}

/// A session with a client.
#[derive(Drop)]
pub struct Server {
    alloc: Global,
    standing: Standing,
    documents: Documents,
    /// The number under which the next tokens are sent.
    next_number: u64,
}

impl Server {
    /// A session that hasn't begun, which shows these errors.
    pub fn new(alloc: Global, errors: ShownErrors) -> Server
        ensures { IsNew errors result }
    {
        Server {
            alloc,
            standing: Standing {
                phase: Phase::Fresh,
                encoding: Encoding::Utf16,
                takes_trees: false,
                folding: FoldingStyle {
                    lines_only: false,
                    limit: None,
                },
                pulls: false,
                errors,
            },
            documents: Documents::new(alloc),
            next_number: 1,
        }
    }

    /// The status to end with, now that nothing more comes: 0 after `shutdown`, else 1.
    pub fn status(&self) -> u8
        ensures { result ≡ status_of self.now.standing.phase }
    {
        match self.standing.phase {
            Phase::ShutDown => 0,
            _ => 1,
        }
    }

    /// What is to be done about the body of a frame.
    #[tactic(auto, using(crate::proofs::Answered::answered, crate::proofs::Answered::known_after, crate::proofs::Answered::sent_after, crate::proofs::Answered::unread_body, crate::proofs::Answered::unread_left, crate::proofs::Answered::unread_sent, crate::proofs::Answered::unread_warned, crate::proofs::Answered::unread_value, crate::proofs::Answered::value_left, crate::proofs::Answered::value_sent, crate::proofs::Answered::value_warned))]
    pub fn answer(&mut self, body: &[u8]) -> Reply
        ensures answer { IsAnswer self.old.standing self.new.standing self.old.documents self.new.documents body.now result }
        ensures documents { IsKnownAfter self.old.standing.phase self.old.standing.encoding body.now self.old.documents self.new.documents result }
        ensures warned { IsWarned (loss_of result) self.old.documents self.new.documents }
        ensures tokens { IsSentAfter self.old self.new body.now result }
    {
        match read_json(self.alloc, body) {
            Ok(value) => match Message::of(self.alloc, &value) {
                Ok(message) => self.answer_message(message),
                Err(unread) => self.answer_value(unread, &value),
            },
            Err(unread) => self.answer_unread(unread),
        }
    }

    /// What is to be done about a body that isn't read. It may have been meant as a change of any document,
    /// so none is known any more.
    pub fn answer_unread(&mut self, unread: Unread) -> Reply
        ensures { LosesAll self.old self.new unread result }
    {
        let news = self.all_lost();
        self.documents.lose_all();
        Reply::Nameless(unread, news)
    }

    /// What is sent if all documents are lost: nothing if none was known.
    fn all_lost(&self) -> News
        ensures warned { result.lost ≡ None → AreUnknown self.now.documents }
        ensures emptied { EmptiesAll result }
    {
        if !self.documents.knows_any() {
            return News::none(self.alloc);
        }
        News {
            lost: Some(Loss::All),
            published: self.emptied(),
        }
    }

    /// For each document whose text is known the notification that it has no errors and warnings, as far as
    /// there is memory for them.
    fn emptied(&self) -> Vec<String>
        ensures { All (λ text. Empties (string_bytes text)) result.items }
    {
        let mut published = Vec::new(self.alloc);
        for entry in self.documents.entries() {
            if entry.is_known() {
                if let Ok(text) = publish_none(self.alloc, entry.uri()) {
                    let _refused = published.push(text);
                }
            }
        }
        published
    }

    /// What is to be done about a value that isn't taken for a message. The document is lost that it may have
    /// been meant to change.
    fn answer_value(&mut self, unread: Unread, value: &Value) -> Reply
        requires { IsUnread (view value.now) unread }
        ensures { LosesMeant self.old self.new (view value.now) unread result }
    {
        let Unread::NotAMessage = unread else {
            return Reply::Nameless(unread, News::none(self.alloc));
        };
        match meant(value) {
            Some(uri) => Reply::Nameless(unread, self.lose(uri)),
            None => Reply::Nameless(unread, News::none(self.alloc)),
        }
    }

    /// The text of a document isn't known any more.
    fn lose(&mut self, uri: &str) -> News
        ensures standing { self.new.standing ≡ self.old.standing }
        ensures unknown { IsUnknown (found uri.now self.new.documents) }
        ensures others { KeepsOthers uri.now self.old.documents self.new.documents }
        ensures warned { IsWarned result.lost self.old.documents self.new.documents }
        ensures emptied { EmptiesAll result }
        ensures tokens { DropsSent self.old self.new }
    {
        let was_known = self.documents.knows(uri);
        self.documents.lose(uri);
        if was_known {
            self.lost(uri)
        } else {
            News::none(self.alloc)
        }
    }

    /// What is sent about a document that is lost.
    fn lost(&self, uri: &str) -> News
        ensures lost { result.lost ≡ Some loss.Document }
        ensures published { All (λ text. Publishes (AreNone uri.now) (string_bytes text)) result.published.items }
    {
        let mut published = Vec::new(self.alloc);
        if let Ok(text) = publish_none(self.alloc, uri) {
            let _refused = published.push(text);
        }
        News {
            lost: Some(Loss::Document),
            published,
        }
    }

    #[tactic(auto, using(crate::proofs::Held::none_lost, crate::proofs::Held::warned_none, crate::proofs::Held::warned_same, crate::proofs::Keeping::drops_none))]
    fn answer_message(&mut self, message: Message<'_>) -> Reply
        ensures reply { IsReplyTo self.old.standing self.new.standing self.old.documents self.new.documents message.entry result }
        ensures documents { IsLeftBy message.entry self.old.standing.phase self.old.standing.encoding self.old.documents self.new.documents }
        ensures warned { IsWarned (loss_of result) self.old.documents self.new.documents }
        ensures tokens { IsSentBy self.old self.new message.entry result }
    {
        match message {
            Message::Request(request) => self.answer_request(request),
            Message::Notification(notification) => self.take_notification(notification),
            Message::Response => Reply::Nothing,
        }
    }

    #[tactic(auto, using(crate::proofs::Keeping::drops_none))]
    fn answer_request(&mut self, request: Request<'_>) -> Reply
        ensures reply { IsReplyTo self.old.standing self.new.standing self.old.documents self.new.documents (message.Request request.entry) result }
        ensures documents { AreSame self.old.documents self.new.documents }
        ensures warned { loss_of result ≡ None }
        ensures tokens { IsSentBy self.old self.new (message.Request request.entry) result }
    {
        let Request { id, method, params } = request;
        // Made first, so that it is at hand where memory lacks later.
        let Ok(refused) = failure(self.alloc, &id, Refusal::OutOfMemory) else {
            return Reply::Nameless(Unread::OutOfMemory, News::none(self.alloc));
        };
        match self.respond(&id, method, params) {
            Ok(text) => Reply::Response(text),
            Err(_) => Reply::Response(refused),
        }
    }

    /// The response to a request. Where memory for it is refused, nothing changes.
    fn respond(&mut self, id: &Id, method: &str, params: Params<'_>) -> Result<String, AllocError>
        ensures response { MatchResult result (λ text. Responds (allowed self.old.standing (named methods method.now) (parameters.seen params.entry)) self.old.standing self.new.standing id.now (string_bytes text)) (λ _. self.new.standing ≡ self.old.standing) }
        ensures answer { IfOk result (λ text. Tells (Gives self.old.standing.phase self.old.standing.errors (named methods method.now) (parameters.seen params.entry) self.old.documents) id.now (string_bytes text)) }
        ensures documents { AreSame self.old.documents self.new.documents }
        ensures tokens { MatchResult result (λ text. KeepsTokens self.old self.new (named methods method.now) (parameters.seen params.entry) id.now (string_bytes text)) (λ _. SameSent self.old self.new) }
    {
        self.renew_tokens(method, params);
        self.make_response(id, method, params)
    }

    /// The response to a request, for which tokens are at hand.
    fn make_response(
        &mut self,
        id: &Id,
        method: &str,
        params: Params<'_>,
    ) -> Result<String, AllocError>
        ensures response { MatchResult result (λ text. Responds (allowed self.old.standing (named methods method.now) (parameters.seen params.entry)) self.old.standing self.new.standing id.now (string_bytes text)) (λ _. self.new.standing ≡ self.old.standing) }
        ensures answer { IfOk result (λ text. Tells (Gives self.old.standing.phase self.old.standing.errors (named methods method.now) (parameters.seen params.entry) self.old.documents) id.now (string_bytes text)) }
        ensures documents { AreSame self.old.documents self.new.documents }
        ensures tokens { MatchResult result (λ text. KeepsTokens self.old self.new (named methods method.now) (parameters.seen params.entry) id.now (string_bytes text)) (λ _. SameSent self.old self.new) }
    {
        let made = match self.value_for(method, params) {
            Ok(made) => made,
            Err(refusal) => return failure(self.alloc, id, refusal),
        };
        let text = success(self.alloc, id, made.value.as_str())?;
        self.take(made.effect);
        Ok(text)
    }

    /// Has all tokens of a document at hand, if a request asks for them.
    fn renew_tokens(&mut self, method: &str, params: Params<'_>)
        ensures { self.new ≡ self.old }
    {
        if let Some(Method::TokensFull | Method::TokensDelta) = Method::of(method) {
            if let Ok(uri) = params.uri() {
                self.documents.renew_tokens(uri);
            }
        }
    }

    /// Makes what changes with an answer.
    #[tactic(auto, using(crate::proofs::Keeping::same_sent))]
    fn take(&mut self, effect: Effect<'_>)
        requires { MayBeTaken effect self.old }
        ensures standing { self.new.standing ≡ standing_after effect.entry self.old.standing }
        ensures documents { AreSame self.old.documents self.new.documents }
        ensures tokens { IsTaken effect.entry self.old self.new }
    {
        match effect {
            Effect::Nothing => {}
            Effect::Moves(standing) => {
                self.standing = standing;
            }
            Effect::Sends(uri, fresh) => {
                self.next_number = self.next_number.wrapping_add(1);
                self.documents.keep(uri, fresh);
            }
        }
    }

    /// The value that answers a request, with what changes once the answer is made.
    fn value_for<'a>(&self, method: &str, params: Params<'a>) -> Result<Made<'a>, Refusal>
        ensures leads { IsLed (allowed self.now.standing (named methods method.now) (parameters.seen params.entry)) self.now.standing result }
        ensures answer { Gives self.now.standing.phase self.now.standing.errors (named methods method.now) (parameters.seen params.entry) self.now.documents (answer_of result) }
        ensures tokens { IsOfTokens self.now (named methods method.now) (parameters.seen params.entry) result }
    {
        let method = Method::of(method);
        match self.standing.phase {
            Phase::Fresh => self.begin(method, params),
            Phase::Running => self.ask(method, params),
            Phase::ShutDown => Err(Refusal::OutOfPlace),
        }
    }

    /// The value that answers the first request.
    #[tactic(auto, using(crate::proofs::Keeping::moves, crate::proofs::Keeping::of_moves))]
    fn begin<'a>(&self, method: Option<Method>, params: Params<'a>) -> Result<Made<'a>, Refusal>
        requires { self.now.standing.phase ≡ phase.Fresh }
        ensures leads { IsLed (leads phase.Fresh method (parameters.seen params.entry) self.now.standing) self.now.standing result }
        ensures answer { Gives phase.Fresh self.now.standing.errors method (parameters.seen params.entry) self.now.documents (answer_of result) }
        ensures tokens { IsOfTokens self.now method (parameters.seen params.entry) result }
    {
        match method {
            Some(method) => match method {
                Method::Initialize => self.initialize(params),
                _ => Err(Refusal::NotInitialized),
            },
            None => Err(Refusal::NotInitialized),
        }
    }

    /// The value that answers a request between `initialize` and `shutdown`.
    #[tactic(auto, using(crate::proofs::Keeping::moves, crate::proofs::Keeping::of_moves, crate::proofs::Keeping::of_nothing, crate::proofs::Keeping::stays, crate::proofs::Responses::gives_about, crate::proofs::Responses::goes_on))]
    fn ask<'a>(&self, method: Option<Method>, params: Params<'a>) -> Result<Made<'a>, Refusal>
        requires { self.now.standing.phase ≡ phase.Running }
        ensures leads { IsLed (leads phase.Running method (parameters.seen params.entry) self.now.standing) self.now.standing result }
        ensures answer { Gives phase.Running self.now.standing.errors method (parameters.seen params.entry) self.now.documents (answer_of result) }
        ensures tokens { IsOfTokens self.now method (parameters.seen params.entry) result }
    {
        match method {
            Some(method) => match method {
                Method::Initialize => Err(Refusal::OutOfPlace),
                Method::Shutdown => self.shut_down(),
                Method::WorkspaceSymbols => self.ask_documents(params),
                _ => self.ask_document(method, params),
            },
            None => Err(Refusal::UnknownMethod),
        }
    }

    fn initialize<'a>(&self, params: Params<'a>) -> Result<Made<'a>, Refusal>
        ensures effect { AnswersWith result (effects.Moves (begun self.now.standing.errors (parameters.seen params.entry))) }
        ensures names { IfOk (answer_of result) (Names (parameters.encoding (parameters.seen params.entry))) }
    {
        let standing = Standing {
            phase: Phase::Running,
            encoding: params.encoding(),
            takes_trees: params.takes_trees(),
            folding: FoldingStyle {
                lines_only: params.folds_lines(),
                limit: params.range_limit(),
            },
            pulls: params.asks_diagnostics(),
            errors: self.standing.errors,
        };
        Ok(Made {
            value: capabilities(self.alloc, params)?,
            effect: Effect::Moves(standing),
        })
    }

    fn shut_down<'a>(&self) -> Result<Made<'a>, Refusal>
        ensures effect { AnswersWith result (effects.Moves (shut self.now.standing)) }
        ensures nothing { IfOk (answer_of result) (λ value. value ≡ codes "null") }
    {
        let mut standing = self.standing;
        standing.phase = Phase::ShutDown;
        Ok(Made {
            value: String::from_str(self.alloc, "null")?,
            effect: Effect::Moves(standing),
        })
    }

    /// The value that answers a request about all documents.
    fn ask_documents<'a>(&self, params: Params<'a>) -> Result<Made<'a>, Refusal>
        ensures effect { AnswersWith result effects.Nothing }
        ensures answer { OfDocuments (parameters.query (parameters.seen params.entry)) (answer_of result) }
    {
        alone(workspace::symbols(self.alloc, &self.documents, params))
    }

    /// The value that answers a request about a document.
    #[tactic(auto, using(crate::proofs::Keeping::of_nothing, crate::proofs::Keeping::of_sent, crate::proofs::Keeping::sent_stays, crate::proofs::Responses::about_known, crate::proofs::Responses::about_missing, crate::proofs::Responses::about_unnamed, crate::proofs::Responses::looked, crate::proofs::Responses::looked_tokens))]
    fn ask_document<'a>(&self, method: Method, params: Params<'a>) -> Result<Made<'a>, Refusal>
        ensures stays { IfOk result (λ made. standing_after made.effect self.now.standing ≡ self.now.standing) }
        ensures answer { IsOf self.now.standing.errors method (parameters.seen params.entry) (parameters.uri (parameters.seen params.entry)) self.now.documents (answer_of result) }
        ensures tokens { IsOfTokens self.now (Some method) (parameters.seen params.entry) result }
    {
        let uri = params.uri()?;
        let document = self.documents.get(uri)?;
        match method {
            Method::TokensFull => self.fresh_tokens(document, uri, None),
            Method::TokensDelta => {
                self.fresh_tokens(document, uri, Some(params.previous_tokens()?))
            }
            _ => alone(self.look_at(document.document(), uri, method, params)),
        }
    }

    /// All tokens of a document, which are kept: as changes where `previous` names the ones that were sent
    /// last.
    fn fresh_tokens<'a>(
        &self,
        document: &Tracked,
        uri: &'a str,
        previous: Option<&str>,
    ) -> Result<Made<'a>, Refusal>
        ensures { IfOk result (λ made. SendsOf (named_last (option_map (λ name. name.now) previous.entry) document.now.sent) document.now.document self.now.next_number uri.now (string_bytes made.value) made.effect) }
    {
        let (value, fresh) = tokens::to_send(self.alloc, document, self.next_number, previous)?;
        Ok(Made {
            value,
            effect: Effect::Sends(uri, fresh),
        })
    }

    /// The value that answers a request that only looks at a document.
    #[tactic(auto, using(crate::proofs::Responses::looked_rest))]
    fn look_at(
        &self,
        document: &Document,
        uri: &str,
        method: Method,
        params: Params<'_>,
    ) -> Result<String, Refusal>
        ensures { IfOk result (λ text. Looks self.now.standing.errors method (parameters.seen params.entry) uri.now document.now (string_bytes text)) }
    {
        match method {
            Method::Diagnostics => report(self.alloc, document, self.standing.errors),
            Method::Definition => naming::definition(self.alloc, document, uri, params),
            Method::References => naming::references(self.alloc, document, uri, params),
            Method::Highlights => naming::highlights(self.alloc, document, params),
            Method::TokensRange => tokens::range(self.alloc, document, params),
            _ => self.show(document, uri, method, params),
        }
    }

    /// The value that answers a request of which nothing more is stated.
    fn show(
        &self,
        document: &Document,
        uri: &str,
        method: Method,
        params: Params<'_>,
    ) -> Result<String, Refusal> {
        let alloc = self.alloc;
        match method {
            Method::Symbols => outline::symbols(alloc, document, uri, self.standing.takes_trees),
            Method::Foldings => requests::foldings(alloc, document, self.standing.folding),
            Method::Selections => requests::selections(alloc, document, params),
            Method::PrepareRename => naming::prepare_rename(alloc, document, params),
            Method::Rename => naming::rename(alloc, document, uri, params),
            Method::Hover => showing::hover(alloc, document, params),
            Method::Completion => showing::completion(alloc, document, params),
            Method::DocumentLinks => links::links(alloc, document, uri),
            Method::CodeActions => actions::actions(alloc, document, uri, params),
            Method::OnTypeFormatting => typing::edits_after(alloc, document, params),
            _ => Err(Refusal::UnknownMethod),
        }
    }

    #[tactic(auto, using(crate::proofs::Held::none_lost, crate::proofs::Keeping::drops_none))]
    fn take_notification(&mut self, notification: Notification<'_>) -> Reply
        ensures reply { IsReplyTo self.old.standing self.new.standing self.old.documents self.new.documents (message.Notification notification.entry) result }
        ensures documents { IsLeftBy (message.Notification notification.entry) self.old.standing.phase self.old.standing.encoding self.old.documents self.new.documents }
        ensures warned { IsWarned (loss_of result) self.old.documents self.new.documents }
        ensures tokens { DropsSent self.old self.new }
    {
        let Notification { method, params } = notification;
        match Event::of(method) {
            None => Reply::Nothing,
            Some(event) => match event {
                Event::Exit => Reply::Exit(self.status()),
                _ => self.take_event(event, params),
            },
        }
    }

    /// What is to be done about what the client does with a document.
    #[tactic(auto, using(crate::proofs::Keeping::drops_none))]
    fn take_event(&mut self, event: Event, params: Params<'_>) -> Reply
        ensures reply { TakesEvent self.old.standing self.new.standing (parameters.seen params.entry) self.new.documents result }
        ensures documents { IsTold self.old.standing.phase self.old.standing.encoding (Some event) (parameters.seen params.entry) self.old.documents self.new.documents }
        ensures warned { IsWarned (loss_of result) self.old.documents self.new.documents }
        ensures tokens { DropsSent self.old self.new }
    {
        let Phase::Running = self.standing.phase else {
            return Reply::Nothing;
        };
        let Ok(uri) = params.uri() else {
            return Reply::Nothing;
        };
        match event {
            Event::Opened => self.opened(uri, params),
            Event::Changed => self.changed(uri, params),
            Event::Closed => self.closed(uri),
            Event::Exit => Reply::Nothing,
        }
    }

    fn opened(&mut self, uri: &str, params: Params<'_>) -> Reply
        ensures standing { self.new.standing ≡ self.old.standing }
        ensures documents { Leaves self.old.standing.encoding event.Opened uri.now (parameters.seen params.entry) self.old.documents self.new.documents }
        ensures others { KeepsOthers uri.now self.old.documents self.new.documents }
        ensures news { IsNewsReply self.new.standing.errors (found uri.now self.new.documents) uri.now (parameters.version (parameters.seen params.entry)) result }
        ensures warned { IsWarned (loss_of result) self.old.documents self.new.documents }
        ensures tokens { DropsSent self.old self.new }
    {
        self.take_text(uri, params);
        self.news_of(uri, params.version(), true)
    }

    /// Opens a document with the text that is sent. If there is none it is lost.
    fn take_text(&mut self, uri: &str, params: Params<'_>)
        ensures standing { self.new.standing ≡ self.old.standing }
        ensures left { Leaves self.old.standing.encoding event.Opened uri.now (parameters.seen params.entry) self.old.documents self.new.documents }
        ensures others { KeepsOthers uri.now self.old.documents self.new.documents }
        ensures tokens { DropsSent self.old self.new }
    {
        match params.text() {
            Ok(text) => self.documents.open(uri, text, self.standing.encoding),
            Err(_) => self.documents.lose(uri),
        }
    }

    fn changed(&mut self, uri: &str, params: Params<'_>) -> Reply
        ensures standing { self.new.standing ≡ self.old.standing }
        ensures documents { Leaves self.old.standing.encoding event.Changed uri.now (parameters.seen params.entry) self.old.documents self.new.documents }
        ensures others { KeepsOthers uri.now self.old.documents self.new.documents }
        ensures news { IsNewsReply self.new.standing.errors (found uri.now self.new.documents) uri.now (parameters.version (parameters.seen params.entry)) result }
        ensures warned { IsWarned (loss_of result) self.old.documents self.new.documents }
        ensures tokens { DropsSent self.old self.new }
    {
        let was_known = self.documents.knows(uri);
        self.take_changes(uri, params);
        self.news_of(uri, params.version(), was_known)
    }

    /// Makes the changes of a document that are sent. If there are none it is lost.
    fn take_changes(&mut self, uri: &str, params: Params<'_>)
        ensures standing { self.new.standing ≡ self.old.standing }
        ensures left { Leaves self.old.standing.encoding event.Changed uri.now (parameters.seen params.entry) self.old.documents self.new.documents }
        ensures others { KeepsOthers uri.now self.old.documents self.new.documents }
        ensures tokens { DropsSent self.old self.new }
    {
        match params.changes() {
            Some(changes) => self.documents.change(uri, changes, self.standing.encoding),
            None => self.documents.lose(uri),
        }
    }

    /// What is sent about a document: its errors and warnings, at a version of it, unless the client asks for
    /// them; where its text isn't known that it is lost, if that `is_new`.
    fn news_of(&self, uri: &str, version: Option<i64>, is_new: bool) -> Reply
        ensures news { IsNewsReply self.now.standing.errors (found uri.now self.now.documents) uri.now version result }
        ensures warned { loss_of result ≡ None → is_new ≡ true → is_known (found uri.now self.now.documents) ≡ true }
    {
        match self.documents.get(uri) {
            Ok(_) if self.standing.pulls => Reply::Nothing,
            Ok(document) => told(
                self.alloc,
                publish(
                    self.alloc,
                    document.document(),
                    self.standing.errors,
                    uri,
                    version,
                ),
            ),
            Err(_) if is_new => Reply::News(self.lost(uri)),
            Err(_) => Reply::Nothing,
        }
    }

    fn closed(&mut self, uri: &str) -> Reply
        ensures standing { self.new.standing ≡ self.old.standing }
        ensures documents { found uri.now self.new.documents ≡ None }
        ensures others { KeepsOthers uri.now self.old.documents self.new.documents }
        ensures news { IsNewsReply self.new.standing.errors None uri.now None result }
        ensures warned { loss_of result ≡ None }
        ensures tokens { DropsSent self.old self.new }
    {
        if self.documents.close(uri) {
            told(self.alloc, publish_none(self.alloc, uri))
        } else {
            Reply::Nothing
        }
    }
}

/// A value with which nothing changes.
fn alone<'a>(value: Result<String, Refusal>) -> Result<Made<'a>, Refusal>
    ensures said { answer_of result ≡ said_of value }
    ensures effect { AnswersWith result effects.Nothing }
{
    Ok(Made {
        value: value?,
        effect: Effect::Nothing,
    })
}

/// The reply that sends a notification that was made.
fn told(alloc: Global, made: Result<String, Refusal>) -> Reply
    ensures told { IsToldOf made result }
    ensures lost { loss_of result ≡ None }
{
    let Ok(text) = made else {
        return Reply::Nothing;
    };
    let mut news = News::none(alloc);
    match news.published.push(text) {
        Ok(()) => Reply::News(news),
        Err(_) => Reply::Nothing,
    }
}
