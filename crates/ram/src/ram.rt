// Memory as a simple slave.
use crate::port::Port;

// Memory behind a port: its bytes are plain, all others unmapped.
#[derive(Drop)]
pub struct Ram {
    pub(crate) memory: Vec<u8>,
    pub(crate) port: Port,
}

impl Ram {
    ghost use Rattle.ram.specs.Shows.{memory_of};
    ghost use Rattle.std.specs.Prelude.{◌≡◌};

    // The memory itself, which the slave then stands over no longer.
    pub fn into_memory(self) -> Vec<u8>
        ensures { result ≡ memory_of self }
    {
        self.memory
    }
}
