// Lanes of masks and strobes.
ghost use Rattle.std.specs.Prelude.{◌≡◌, ℕ, ◌^◌, ◌<◌, ◌≤◌, Bool, if◌then◌else◌};
ghost use Rattle.burst.specs.Beats.{any_below, mask_below, bit};

// The lanes of the widest bus.
pub const LANES: u8 = 8;

// Whether bit i of a strobe or a lane mask is set; none is from 8 on.
pub fn strobed(mask: u8, i: u8) -> bool
    ensures { result ≡ bit mask i }
{
    if i >= LANES {
        return false;
    }
    (mask >> i) % 2 == 1
}

// The bit of a lane where it is used, else 0.
fn lane_bit(used: bool, lane: u8) -> u8
    requires { lane < 8 }
    ensures value { result ≡ (if used then 2 ^ lane else 0) }
    ensures bound { result ≤ 2 ^ lane }
{
    u8::from(used) << lane
}

// The mask with a bit for each lane that passes a test. A `for` and no `sum`: that the bits fit a byte is the loop's
// invariant, and a sum would want it told beforehand of what the closure answers.
pub fn mask_of<F: Fn(u8) -> bool>(test: F) -> u8
    requires { F.IsAlwaysCallable test }
    ensures { (p : ℕ → Bool) → ((i : ℕ) (b : Bool) → i < 8 → F.post test i b → b ≡ p i) → result ≡ mask_below p 8 }
{
    let mut mask = 0;
    for i in 0..LANES {
        mask += lane_bit(test(i), i);
    }
    mask
}

// Whether some lane passes a test.
pub fn any_lane<F: Fn(u8) -> bool>(test: F) -> bool
    requires { F.IsAlwaysCallable test }
    ensures { (p : ℕ → Bool) → ((i : ℕ) (b : Bool) → i < 8 → F.post test i b → b ≡ p i) → result ≡ any_below p 8 }
{
    (0..LANES).any(|i| test(i))
}
