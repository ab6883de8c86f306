//! One short proved caller for each handle of the library.
#![tactic(auto)]

mod batches;
mod count_min;
mod draining;
mod feeding;
mod greatest;
mod joins;
mod labels;
mod lines;
mod panes;
mod ranks;
mod schedule;
mod streams;
mod tenants;

pub use batches::word_with_batch;
pub use count_min::{HowOften, how_often};
pub use draining::drain_last_first;
pub use feeding::{feed_all, feed_item, feed_some};
pub use greatest::{Greatest, greatest_item};
pub use joins::{estimate_again, estimate_items, estimate_of_both, list_of_both};
pub use labels::{read_to_blame, short_label};
pub use lines::{Measured, Threes, have_one_length, measure_lines, measure_text};
pub use panes::{feed_and_reply, finish_again, hands_over_each, reply_now};
pub use ranks::rank_source;
pub use schedule::replay;
pub use sk_model::OutOfMemory;
pub use streams::{Counted, count_streams};
pub use tenants::{Answered, count_two_tenants, has_plain_name, help_and_ask, offer_if_kept};
