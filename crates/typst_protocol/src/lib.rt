//! The frames and the messages of the Language Server Protocol, as far as a server of documents reads
//! and writes them.
//!
//! - [`frames`]: messages as bytes of a stream.
//! - [`read_json`] reads a body, and [`Message::of`] says what it is: a [`Request`] with an [`Id`], a
//!   [`Notification`], or a response. [`Method`] and [`Event`] are what they ask and tell, [`Params`] of
//!   what.
//! - [`mend`] makes a body that writes lone surrogates one that can be read, and [`is_same`] tells whether
//!   two addresses name one document; [`neighbour`] is the address of a file that a document names; [`meant`] is the document that what is no message may have been about.
//! - [`success`], [`failure`] and [`notification`] are the bodies that are sent, [`json_of`] is the text of
//!   one of the [`values`] in them, [`Refusal`] is why a request is refused,
//!   [`Unread`] why a body isn't taken for a message, and [`Loss`] what isn't known any more.
#![tactic(auto)]

pub mod address;
pub mod escapes;
pub mod frames;
pub mod message;
pub mod method;
pub mod params;
pub mod refusal;
pub mod response;
pub mod values;

pub use address::{is_same, neighbour};
pub use escapes::mend;
pub use message::{Id, Message, Notification, Request, meant, read_json};
pub use method::{Event, Method};
pub use params::{Change, Params, Stretch};
pub use refusal::{Loss, Refusal, Unread};
pub use response::{failure, json_of, notification, success};
