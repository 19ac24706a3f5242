// The record of the calls that a slave took.
ghost use Rattle.arrayvec.specs.ArrayVec.{array_vec_len};
ghost use Rattle.recorder.specs.Record.{empty, recorded};
ghost use Rattle.std.specs.Prelude.{◌≡◌, []};

use arrayvec::ArrayVec;
use burst::RawBurst;
use slave::Channel;

/// A call that reached a slave and was taken there.
#[derive(Clone, Copy, PartialEq, Eq)]
pub enum Call {
    Open(Channel, RawBurst),
    Give { word: u64, strobe: u8 },
    Take,
}

// A slot that is not filled. By hand: nobody but the array of slots is to ask for a call of no slave.
impl Default for Call {
    ghost is_default = { λ x. x ≡ empty };

    fn default() -> Call {
        Call::Take
    }
}

/// A slave with a record of the calls that it took, in order: of the first 1,024. Later ones are passed down and not noted.
#[derive(Drop)]
pub struct Recorder<S> {
    pub(crate) below: S,
    pub(crate) calls: ArrayVec<Call, 1024>,
}

impl<S> Recorder<S> {
    /// A slave with nothing recorded yet.
    pub fn new(below: S) -> Recorder<S>
        ensures same { result.below ≡ below }
        ensures none { result.calls.items ≡ [] }
    {
        Recorder {
            below,
            calls: ArrayVec::new(),
        }
    }

    /// The slave that the calls are passed to.
    pub fn below(&self) -> &S
        ensures { result.now ≡ self.now.below }
    {
        &self.below
    }

    /// That slave itself, without the record.
    pub fn into_below(self) -> S
        ensures { result ≡ self.below }
    {
        self.below
    }

    /// The calls that are recorded.
    pub fn calls(&self) -> &[Call]
        ensures { result.now ≡ self.now.calls.items }
    {
        self.calls.as_slice()
    }

    /// How many calls are recorded.
    pub fn count(&self) -> usize
        ensures { result ≡ array_vec_len self.now.calls }
    {
        self.calls.len()
    }

    /// The i-th call recorded, from 0; none from the count on.
    pub fn get(&self, i: usize) -> Option<Call>
        ensures { result ≡ recorded self.now.calls.items i }
    {
        self.calls.get(i).copied()
    }
}
