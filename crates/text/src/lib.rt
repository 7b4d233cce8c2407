// Bytes and numbers put into a lent buffer as text.
#![tactic(auto)]

mod buffer;
mod lengths;

pub use buffer::TextBuffer;
pub use lengths::decimal_length;
