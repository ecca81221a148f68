//! The frames of the Language Server Protocol, over any reader and writer.

mod bytes;
mod header;
pub mod reader;
pub mod writer;

pub use reader::{End, Frame, FrameReader};
pub use writer::{write_frame, written_is_read};
