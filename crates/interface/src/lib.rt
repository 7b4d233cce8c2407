// The C interface, which include/sulgrach.h declares: a slice is a pointer and a length in elements.
#![tactic(auto)]

mod answers;
mod calls;
mod converting;
mod list;
mod paging;
mod reducing;

pub use calls::{sulgrach_check, sulgrach_check_classes, sulgrach_replay};
pub use converting::{sulgrach_with_labels, sulgrach_without_labels};
pub use list::sulgrach_list;
pub use paging::sulgrach_page;
pub use reducing::sulgrach_breaking_rows;
