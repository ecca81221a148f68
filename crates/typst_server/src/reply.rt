//! What the server does about a message.
ghost use Rattle.std.specs.Prelude.{◌≡◌, [], None};

use std::alloc::Global;
use typst_protocol::{Loss, Unread};

/// What the server does about a message.
#[derive(Drop)]
pub enum Reply {
    /// Nothing.
    Nothing,
    /// It answers a request, with this body.
    Response(String),
    /// It answers what isn't taken for a message, and says what is lost by it.
    Nameless(Unread, News),
    /// It sends something about documents.
    News(News),
    /// It ends, with this status.
    Exit(u8),
}

/// What the server sends about documents.
#[derive(Drop)]
pub struct News {
    /// What was known and isn't any more. The user is warned of it before the rest is sent.
    pub lost: Option<Loss>,
    /// The bodies of notifications that publish errors and warnings, in order.
    pub published: Vec<String>,
}

impl News {
    /// Nothing is lost or published.
    pub fn none(alloc: Global) -> News
        ensures lost { result.lost ≡ None }
        ensures published { result.published.items ≡ [] }
    {
        News {
            lost: None,
            published: Vec::new(alloc),
        }
    }
}
