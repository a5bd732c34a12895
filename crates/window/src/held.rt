// A head whose fields are within their limits, so that the products of its rules fit 64 bits.
ghost use Rattle.window.specs.Limits.{Held};

use crate::Head;

#[derive(Clone, Copy)]
pub struct HeldHead {
    pub head: Head,
    pub ghost held: { Held head },
}
