// The pile that a script runs over, and its memory.
ghost use Rattle.ram.specs.Memory.{memory_board};
ghost use Rattle.bench.specs.Piles.{Piled, loaded, pile_shows};
ghost use Rattle.bench.specs.declared.fault.CallFault.TheVariants.{Memory};
ghost use Rattle.fabric.specs.Acts.{fits_below};
ghost use Rattle.slave.specs.Meaning.{board};
ghost use Rattle.std.specs.Prelude.{◌≡◌, ◌≤◌, true, length, is_ok, IfOk, IfErr, vec_len, ◌==◌};

use crate::fault::CallFault;
use converter::Converter;
use ram::Ram;
use register::RegisterSlice;
use splitter::Splitter;

// The bytes of the memory below the pile.
pub const MEMORY_BYTES: usize = 8192;

// What a script runs over: a slice over a converter over a splitter over memory.
pub type Pile = RegisterSlice<Converter<Splitter<Ram>>>;

// The pile over this memory: a slice over a converter of width 8 over a splitter in runs of 8 over memory of width 4 that
// takes 8 beats at most. It is live, idle, full and of width 8, and shows the memory's bytes.
pub fn pile(memory: Vec<u8>) -> Result<Pile, CallFault>
    ensures answer { is_ok result ≡ (vec_len memory == MEMORY_BYTES) }
    ensures refused { IfErr result (λ e. e ≡ Memory) }
    ensures piled { IfOk result (λ p. Piled p memory.items) }
    ensures ready { IfOk result (λ p. fits_below (pile_shows p) ≡ true) }
    ensures board { IfOk result (λ p. board (pile_shows p) ≡ memory_board memory.items) }
{
    if memory.len() != MEMORY_BYTES {
        return Err(CallFault::Memory);
    }
    // No making is refused: the memory has a length that is one, and what each stands over is ready.
    let ram = Ram::new(memory, 4, 8).unwrap();
    let splitter = Splitter::new(ram, 8).unwrap();
    let converter = Converter::new(splitter, 8).unwrap();
    Ok(RegisterSlice::new(converter).unwrap())
}

// Makes memory hold an image and then zeros.
fn load(memory: &mut [u8], image: &[u8])
    requires { length image.now ≤ length memory.old }
    ensures { memory.new ≡ loaded image.now (length memory.old) }
{
    memory.fill(0);
    memory[0..image.len()].copy_from_slice(image);
}

// Memory with an image and then zeros.
pub(crate) fn with_image(mut memory: Vec<u8>, image: &[u8]) -> Vec<u8>
    requires { length image.now ≤ vec_len memory }
    ensures { result.items ≡ loaded image.now (vec_len memory) }
{
    load(memory.as_mut_slice(), image);
    memory
}
