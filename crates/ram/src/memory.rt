// Loads and stores of words of a bus.
ghost use Rattle.std.specs.Prelude.{◌≡◌, if◌then◌else◌, slice_set, ◌*◌, ◌/◌};
ghost use Rattle.burst.specs.Beats.{covers};
ghost use Rattle.burst.specs.Rules.{width_bytes};
ghost use Rattle.ram.specs.Memory.{put_lanes, kind_at, memory_board};
ghost use Rattle.slave.specs.Lanes.{write_response, read_response, shown, read_word, read_worst, write_worst};
ghost use Rattle.slave.specs.declared.response.Response.TheVariants.{Okay};

use burst::{Cover, LANES, Width};
use slave::Response;

// Stores a byte where there is memory.
fn store(mem: &mut [u8], address: u64, b: u8) -> Response
    ensures value { result ≡ write_response (kind_at mem.old address) }
    ensures after { mem.new ≡ slice_set mem.old address b }
{
    // By index, since the contract of a slice's `get_mut` does not say what the slice holds after the write.
    let i = address as usize;
    if i >= mem.len() {
        return Response::DecErr;
    }
    mem[i] = b;
    Response::Okay
}

// Stores the strobed lanes of the word that a beat lies in.
// A loop, since each lane writes, and `worst_of` calls a closure that writes nothing.
#[tactic(auto, using(crate::proofs::Stores::put_more, slave::proofs::Worst::worst_more))]
pub(crate) fn store_word(
    mem: &mut [u8],
    cover: Cover,
    width: Width,
    word: u64,
    strobe: u8,
) -> Response
    ensures value { result ≡ write_worst (memory_board mem.old) (width_bytes width) cover strobe }
    ensures after { mem.new ≡ put_lanes mem.old (cover.first / width_bytes width * width_bytes width) word strobe 8 }
{
    let base = u64::from(width.word_start(cover.first));
    let mut worst = Response::Okay;
    for i in 0..LANES {
        if burst::strobed(strobe, i) {
            let here = store(mem, base + u64::from(i), slave::lane_byte(word, i));
            worst = worst.worse(here);
        }
    }
    worst
}

// The byte at an address that a beat covers, else 0.
fn fetch(mem: &[u8], cover: Cover, address: u64) -> u8
    ensures { result ≡ (if covers cover.first cover.last address then shown (memory_board mem.now) address else 0) }
{
    if !cover.contains(address) {
        return 0;
    }
    mem.get(address as usize).copied().unwrap_or(0)
}

// How a read of an address goes, where a beat covers it.
fn fetched(mem: &[u8], cover: Cover, address: u64) -> Response
    ensures { result ≡ (if covers cover.first cover.last address then read_response (kind_at mem.now address) else Okay) }
{
    if cover.contains(address) && address as usize >= mem.len() {
        Response::DecErr
    } else {
        Response::Okay
    }
}

// The covered bytes, each in its lane.
pub(crate) fn load_word(mem: &[u8], cover: Cover, width: Width) -> u64
    ensures { result ≡ read_word (memory_board mem.now) (width_bytes width) cover }
{
    let base = u64::from(width.word_start(cover.first));
    u64::from_le_bytes(std::array::from_fn(|i| fetch(mem, cover, base + i as u64)))
}

// The worst response over the covered bytes.
pub(crate) fn load_worst(mem: &[u8], cover: Cover, width: Width) -> Response
    ensures { result ≡ read_worst (memory_board mem.now) (width_bytes width) cover }
{
    let base = u64::from(width.word_start(cover.first));
    slave::worst_of(|i| fetched(mem, cover, base + u64::from(i)))
}
