//! A server of the Language Server Protocol for Typst, over any reader and writer.
//!
//! [`serve`] answers the frames of a reader on a writer. [`Server`] is a session without its streams:
//! [`Server::answer`] takes the body of a frame and says what is to be done about it, a [`Reply`].
#![tactic(auto)]

mod actions;
mod capabilities;
mod diagnostics;
mod documents;
mod links;
mod naming;
mod outline;
mod reply;
mod requests;
mod server;
mod showing;
mod streams;
mod tokens;
mod tracked;
mod typing;
mod workspace;

pub use diagnostics::ShownErrors;
pub use documents::Documents;
pub use reply::Reply;
pub use server::Server;
pub use streams::serve;
