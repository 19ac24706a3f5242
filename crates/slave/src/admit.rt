// Which bursts a slave takes at an idle channel.
ghost use Rattle.burst.specs.Rules.{width_bytes};
ghost use Rattle.burst.specs.Beats.{raw_of, IsLawful};
ghost use Rattle.slave.specs.Acts.{admission, bare};
ghost use Rattle.std.specs.Prelude.{◌≡◌, IfOk, OnOk};

use crate::fault::SlaveFault;
use burst::{Burst, BurstKind, RawBurst, Width};

// The burst as a slave of this width, most and fullness takes it at an idle channel.
pub fn admitted(raw: RawBurst, width: Width, most: u16, full: bool) -> Result<Burst, SlaveFault>
    ensures answer { bare result ≡ admission (width_bytes width) most full raw }
    ensures same { IfOk result (λ b. raw_of b ≡ raw) }
    ensures lawful { OnOk result (IsLawful (width_bytes width) raw) }
{
    let burst = burst::check(raw, width)?;
    if !full && (burst.kind != BurstKind::Incr || raw.count > most) {
        return Err(SlaveFault::Simple);
    }
    Ok(burst)
}
