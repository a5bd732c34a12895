// What C and Rust may call: the whole paper over lent words and bytes. Each function answers the
// paper's refusal number, 0 where the call is accepted, and takes any words of any length.
#![tactic(auto)]

mod asking;
mod changing;
mod filing;
mod looking;

pub use asking::{flonterri_available_at, flonterri_full_tick};
pub use changing::{
    flonterri_append, flonterri_append_stamp, flonterri_append_trim, flonterri_open, flonterri_trim,
};
pub use filing::{flonterri_read, flonterri_write};
pub use looking::{
    flonterri_availability, flonterri_covered_edge, flonterri_touching, flonterri_verdict,
    flonterri_verdict_whole,
};
