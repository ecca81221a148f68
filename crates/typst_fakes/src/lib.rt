//! What tests share. Class values: two that keep the law and answer unlike Unicode, and one that counts.
//! [`streams`] over memory, which trickle, stop and fail.
#![tactic(auto)]

mod clusters;
pub mod counting;
pub mod narrow;
pub mod streams;
pub mod wide;

pub use clusters::first_cluster;
pub use counting::Counting;
pub use narrow::Narrow;
pub use wide::Wide;
