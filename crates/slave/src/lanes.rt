// Lanes of words and strobes.
ghost use Rattle.slave.specs.Lanes.{lane_byte, outside, worst_lane};
ghost use Rattle.slave.specs.declared.response.Response.{Response};
ghost use Rattle.std.specs.Prelude.{◌≡◌, ℕ, ◌<◌};

use crate::response::Response;
use burst::LANES;

// The byte in lane i of a word, 0 from lane 8 on. A shift says it as the field does, lane i is bits 8i to 8i + 7;
// `to_le_bytes` would want an index of another type.
pub fn lane_byte(word: u64, i: u8) -> u8
    ensures { result ≡ lane_byte word i }
{
    if i >= LANES {
        return 0;
    }
    ((word >> (8 * i)) % 256) as u8
}

// Whether a strobe has any of the eight lanes outside a mask.
pub fn strays(mask: u8, strobe: u8) -> bool
    ensures { result ≡ outside mask strobe }
{
    burst::any_lane(|i| burst::strobed(strobe, i) && !burst::strobed(mask, i))
}

// The worst response of the eight lanes. A loop is the fold itself, and its invariant the definition's own step.
pub fn worst_of<F: Fn(u8) -> Response>(response: F) -> Response
    requires { F.IsAlwaysCallable response }
    ensures { (p : ℕ → Response) → ((i : ℕ) (r : Response) → i < 8 → F.post response i r → r ≡ p i) → result ≡ worst_lane p 8 }
{
    let mut worst = Response::Okay;
    for i in 0..LANES {
        worst = worst.worse(response(i));
    }
    worst
}
