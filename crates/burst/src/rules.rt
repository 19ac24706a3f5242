// The check of a burst.
ghost use Rattle.std.specs.Prelude.{◌≡◌, ℕ, ◌+◌, ◌*◌, ◌^◌, ◌<◌, ◌≤◌, IfOk};
ghost use Rattle.burst.specs.Rules.{width_bytes, kind_code};
ghost use Rattle.burst.specs.Beats.{raw_of, first_refusal, answered};

use crate::burst::Burst;
use crate::raw::{BurstFault, BurstKind, RawBurst};
use crate::width::Width;

// No burst leaves the page of this many bytes that it starts in.
pub const PAGE: u32 = 4096;

// The most beats of any burst.
pub const MOST_BEATS: u16 = 256;

const MOST_FIXED: u16 = 16;

// The bytes of a beat with this size code; 16 stands for any number that no bus carries.
fn beat_bytes(size: u8) -> u32
    ensures carried { size ≤ 3 → result ≡ 2 ^ size }
    ensures large { 3 < size → (result ≡ 16) × (16 ≤ 2 ^ size) }
{
    1 << size.min(4)
}

// The kind of a lawful burst, or the first rule that the burst breaks on a bus of this width.
fn lawful_kind(raw: RawBurst, width: Width) -> Result<BurstKind, BurstFault>
    ensures first { answered result ≡ first_refusal (width_bytes width) raw }
    ensures same { IfOk result (λ k. kind_code k ≡ raw.kind) }
{
    let beat = beat_bytes(raw.size);
    let RawBurst {
        kind,
        start,
        count,
        ..
    } = raw;
    match kind {
        3.. => Err(BurstFault::Kind),
        _ if beat > width.bytes() => Err(BurstFault::Size),
        _ if count == 0 || count > MOST_BEATS => Err(BurstFault::Count),
        0 if count > MOST_FIXED => Err(BurstFault::Count),
        2 if !matches!(count, 2 | 4 | 8 | 16) => Err(BurstFault::Count),
        2 if start % beat != 0 => Err(BurstFault::Start),
        0 if start % PAGE + beat > PAGE => Err(BurstFault::Page),
        1 if start % PAGE + u32::from(count) * beat > PAGE => Err(BurstFault::Page),
        0 => Ok(BurstKind::Fixed),
        1 => Ok(BurstKind::Incr),
        _ => Ok(BurstKind::Wrap),
    }
}

// The burst as a checked one, or the first rule that it breaks on a bus of this width.
pub fn check(raw: RawBurst, width: Width) -> Result<Burst, BurstFault>
    ensures first { answered result ≡ first_refusal (width_bytes width) raw }
    ensures same { IfOk result (λ b. raw_of b ≡ raw) }
{
    let kind = lawful_kind(raw, width)?;
    Ok(Burst {
        kind,
        start: raw.start,
        size: raw.size,
        count: raw.count,
    })
}
