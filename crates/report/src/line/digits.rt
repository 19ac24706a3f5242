// Bytes and numbers at the end of a line. What does not fit is cut off, so that nothing asks for room; of a whole line
// nothing is.
ghost use Rattle.std.specs.Prelude.{◌≡◌, ◌<◌, true, [], ◌++◌, decimal};
ghost use Rattle.report.specs.Lines.{hex2, hex_bytes};
ghost use Rattle.report.specs.Texts.{cut, text};
ghost use Rattle.std.specs.Fmt.{digit_glyph};

use super::Line;
use arrayvec::ArrayVec;
use itoa::Buffer;

// A capital hexadecimal digit. The kit's `hex` writes small ones, or capitals in memory of an allocator.
fn digit(d: u8) -> u8
    requires { d < 16 }
    ensures { result ≡ digit_glyph true d }
{
    if d < 10 { b'0' + d } else { b'A' + (d - 10) }
}

impl Line {
    // An empty line.
    pub(crate) fn new() -> Line
        ensures { text result ≡ [] }
    {
        Line {
            bytes: ArrayVec::new(),
        }
    }

    // Some bytes more.
    #[tactic(auto, using(crate::proofs::Pushes::fitted))]
    pub(crate) fn push(&mut self, bytes: &[u8])
        ensures { text self.new ≡ cut (text self.old ++ bytes.now) }
    {
        let fitting = bytes.len().min(self.bytes.remaining_capacity());
        self.bytes.try_extend_from_slice(&bytes[..fitting]).unwrap();
    }

    // A number in decimal.
    pub(crate) fn number(&mut self, n: u32)
        ensures { text self.new ≡ cut (text self.old ++ decimal n) }
    {
        self.push(Buffer::new().format(n).as_bytes());
    }

    // A byte by its two digits.
    pub(crate) fn hex2(&mut self, byte: u8)
        ensures { text self.new ≡ cut (text self.old ++ hex2 byte) }
    {
        self.push(&[digit(byte / 16), digit(byte % 16)]);
    }

    // A word by its sixteen digits.
    pub(crate) fn hex16(&mut self, word: u64)
        ensures { text self.new ≡ cut (text self.old ++ hex_bytes 8 word) }
    {
        for byte in word.to_be_bytes() {
            self.hex2(byte);
        }
    }
}
