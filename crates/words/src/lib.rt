// A record and the answers as words, as C sees them: the record that 12 words mean, whether lengths are
// right, and what each answer puts into the caller's `out`. Who calls an inner one has tested the lengths.
#![tactic(auto)]

ghost use Rattle.std.specs.Prelude.{◌≡◌, List};

mod changing;
mod filing;
mod measuring;
mod packing;
mod showing;
mod telling;

pub use changing::{give_appended, give_back};
pub use filing::give_read;
pub use measuring::record_beside;
pub use packing::record_in;
pub use telling::tell;

// An answer that is told in N words.
pub trait Told<W: Copy, const N: usize> {
    ghost shown: { Self → List W };

    fn words(self) -> [W; N]
        ensures { result ≡ shown self };
}
