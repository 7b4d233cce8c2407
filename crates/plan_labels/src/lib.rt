// Labels of edges and points: each by itself, and whether the network is well-defined with them.
#![tactic(auto)]

mod labels;

pub use labels::{label_fits, point_labels_fit, well_defined};
