// Where a beat is cut for the bus below.
ghost use Rattle.std.specs.Prelude.{◌≡◌, min};
ghost use Rattle.burst.specs.Rules.{width_bytes};
ghost use Rattle.converter.specs.Laws.{PiecesLie};
ghost use Rattle.converter.specs.Pieces.{code_of, piece_end};

use crate::laws;
use burst::Width;

// The size code of a beat that fills a bus of this width.
fn size_code(width: Width) -> u8
    ensures { result ≡ code_of (width_bytes width) }
{
    width.bytes().ilog2() as u8
}

// The size code of a beat's pieces over a bus of this width.
pub(crate) fn piece_code(size: u8, width: Width) -> u8
    ensures { result ≡ min size (code_of (width_bytes width)) }
{
    size.min(size_code(width))
}

// The last byte of the piece that begins at this address, of a beat that ends with `last`, over a bus of this width.
pub fn piece_end(address: u32, last: u32, width: Width) -> u32
    ensures value { result ≡ piece_end (width_bytes width) last address }
    ensures law { PiecesLie }
{
    laws::pieces_lie();
    let end = width.word_start(address) + (width.bytes() - 1);
    end.min(last)
}
