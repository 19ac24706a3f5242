// A script: its records and its image, as parts of the file.
ghost use Rattle.std.specs.Prelude.{◌/◌, ◌≤◌, length};

#[derive(Clone, Copy)]
pub struct Script<'a> {
    records: &'a [u8],
    image: &'a [u8],

    // records of 24 bytes, of at most 2,048 acts
    pub ghost most_acts: { length records.now / 24 ≤ 2048 },

    // at most 8,192 bytes of image
    pub ghost most_image: { length image.now ≤ 8192 },
}

// A module below, since the definitions that its clauses cite name the struct.
pub mod calls;
