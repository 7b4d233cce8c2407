// A plan read from its bytes, and its labels.
#![tactic(auto)]

mod bounds;
mod bytes;
mod copying;
mod edge_rows;
mod fields;
mod label;
mod marks;
mod numbers;
mod refusal;

pub use bounds::{horizon, largest};
pub use bytes::{byte_at, word_at};
pub use copying::copy_elements;
pub use edge_rows::EdgeRows;
pub use fields::{
    cells, data_at, edge_down, edge_from, edge_label, edge_row, edge_to, edge_up, edges, ends_at,
    label_bytes, labels, labels_at, length_for, link_activation, link_finish, link_least,
    link_most, links, observer, point_label, points, propositions, width,
};
pub use label::{clear_digit, digit, is_plain, join};
pub use marks::plain_marks;
pub use numbers::cell_at;
pub use refusal::Refusal;

// No duration and no weight, either way, is longer, in seconds.
pub const MOST_SECONDS: u64 = 28800;

// No accepted plan is longer, in bytes.
pub const MOST_BYTES: usize = 832;
