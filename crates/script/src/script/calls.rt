// A file as a script, and the script's parts.
ghost use Rattle.std.specs.Prelude.{◌≡◌, ℕ, ◌/◌, length, slice_get};
ghost use Rattle.script.specs.Files.{Opened, Split, fits as header_fits, wants as header_wants, record_at};
ghost use Rattle.script.specs.Laws.{FilesParted};
ghost use Rattle.std.specs.Option.{option_map};

use super::Script;
use crate::fault::ScriptFault;
use crate::record::RECORD;

// The bytes of a header.
pub(crate) const HEADER: usize = 8;

// The most acts of a script.
pub const MOST_ACTS: usize = 2048;

// The most bytes of its image.
const MOST_IMAGE: usize = 8192;

// The two numbers at the start of a file.
#[derive(Clone, Copy, PartialEq, Eq)]
pub struct Header {
    acts: usize,
    image: usize,
}

impl Header {
    // The header may stand before so many bytes.
    fn fits(self, bytes: usize) -> bool
        ensures { result ≡ header_fits self bytes }
    {
        let Header { acts, image } = self;
        acts <= MOST_ACTS && image <= MOST_IMAGE && bytes == RECORD * acts + image
    }

    // How many bytes behind the header are read: those that it tells and one more, which shows that a file goes on;
    // none where no script has the header.
    pub(crate) fn wanted(self) -> u64
        ensures { result ≡ header_wants self }
    {
        let Header { acts, image } = self;
        if acts > MOST_ACTS || image > MOST_IMAGE {
            return 0;
        }
        (RECORD * acts + image + 1) as u64
    }
}

// The header, and what follows it; with the law of a script's parts.
pub(crate) fn split_header(file: &[u8]) -> Result<(Header, &[u8]), ScriptFault>
    ensures law { FilesParted }
    ensures answer { Split file.now result }
{
    let &[a, b, c, d, e, f, g, h, ref rest @ ..] = file else {
        return Err(ScriptFault::Header);
    };
    // casts that widen, since usize has no From<u32>
    let header = Header {
        acts: u32::from_le_bytes([a, b, c, d]) as usize,
        image: u32::from_le_bytes([e, f, g, h]) as usize,
    };
    Ok((header, rest))
}

// A file as a script; a file whose header does not fit it is refused.
pub fn open(file: &[u8]) -> Result<Script<'_>, ScriptFault>
    ensures law { FilesParted }
    ensures answer { Opened file.now result }
{
    let (header, rest) = split_header(file)?;
    if !header.fits(rest.len()) {
        return Err(ScriptFault::Header);
    }
    let (records, image) = rest.split_at(RECORD * header.acts);
    Ok(Script { records, image })
}

impl<'a> Script<'a> {
    // How many acts there are.
    pub fn acts(&self) -> usize
        ensures { result ≡ length self.now.records.now / 24 }
    {
        self.records.len() / RECORD
    }

    // The records of the acts.
    pub fn records(&self) -> &'a [[u8; RECORD]]
        ensures count { length result.now ≡ length self.now.records.now / 24 }
        ensures each { (i : ℕ) → slice_get result.now i ≡ record_at self.now.records.now i }
    {
        self.records.as_chunks().0
    }

    // The record of an act, none past the last.
    pub fn record(&self, i: usize) -> Option<&'a [u8]>
        ensures { option_map (λ x. x.now) result ≡ record_at self.now.records.now i }
    {
        self.records().get(i).map(|record| record.as_slice())
    }

    // The image.
    pub fn image(&self) -> &'a [u8]
        ensures { result.now ≡ self.now.image.now }
    {
        self.image
    }
}
