// A number in two halves, each below 8,192. It is no struct, since C lends scratch as one number of 32 bits for each
// element.
ghost use Rattle.std.specs.Prelude.{◌≡◌, ◌<◌};
ghost use Rattle.classes.specs.Halves.{half, low_half, high_half, number_of};

const HALF: u32 = 8192;

#[tactic(auto, unfolding(crate::specs::Halves::low_half))]
pub fn low(v: u32) -> u32
    ensures { result ≡ low_half v }
{
    v % HALF
}

#[tactic(auto, unfolding(crate::specs::Halves::high_half))]
pub fn high(v: u32) -> u32
    ensures { result ≡ high_half v }
{
    v / HALF
}

#[tactic(auto, unfolding(crate::specs::Halves::number_of))]
pub fn number(low: u32, high: u32) -> u32
    requires { (low < half) × (high < 524288) }
    ensures { result ≡ number_of low high }
{
    low + HALF * high
}
