// A record of 24 bytes by its fields.
ghost use Rattle.std.specs.Prelude.{◌≡◌};
ghost use Rattle.script.specs.Records.{read_record, record_bytes};

// The bytes of a record.
pub const RECORD: usize = 24;

// The count of a request's beats stands as the beats further than the first; three bytes that no act uses are one number.
// Code and kind are numbers, since any byte may stand there.
#[derive(Clone, Copy, Default, PartialEq, Eq)]
pub struct Record {
    pub code: u8,
    pub master: u8,
    pub id: u8,
    pub qos: u8,
    pub kind: u8,
    pub size: u8,
    pub further: u8,
    pub last: u8,
    pub address: u32,
    pub strobe: u8,
    pub zeros: u32,
    pub word: u64,
}

impl Record {
    // The fields of a record; none of another length than 24 bytes.
    pub(crate) fn read(bytes: &[u8]) -> Option<Record>
        ensures { result ≡ read_record bytes.now }
    {
        let &[code, master, id, qos, kind, size, further, ref rest @ ..] = bytes else {
            return None;
        };
        let &[last, a, b, c, d, strobe, x, y, z, ref word @ ..] = rest else {
            return None;
        };
        Some(Record {
            code,
            master,
            id,
            qos,
            kind,
            size,
            further,
            last,
            address: u32::from_le_bytes([a, b, c, d]),
            strobe,
            zeros: u32::from_le_bytes([x, y, z, 0]),
            word: u64::from_le_bytes(word.try_into().ok()?),
        })
    }

    // The bytes of a record.
    pub(crate) fn bytes(self) -> [u8; RECORD]
        ensures { result ≡ record_bytes self }
    {
        let [a, b, c, d] = self.address.to_le_bytes();
        let [x, y, z, _] = self.zeros.to_le_bytes();
        let [e, f, g, h, i, j, k, l] = self.word.to_le_bytes();
        [
            self.code,
            self.master,
            self.id,
            self.qos,
            self.kind,
            self.size,
            self.further,
            self.last,
            a,
            b,
            c,
            d,
            self.strobe,
            x,
            y,
            z,
            e,
            f,
            g,
            h,
            i,
            j,
            k,
            l,
        ]
    }
}
