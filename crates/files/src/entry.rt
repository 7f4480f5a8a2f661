ghost use Rattle.std.specs.Prelude.{◌≡◌, length};
ghost use Rattle.files.specs.Format.{record_position, file_length};
ghost use Rattle.files.specs.Entries.{count, raw_records, entry_of, key};

/// The length of a header.
pub const HEADER: usize = 10;

/// The length of a record.
pub const RECORD: usize = 5;

/// Where the record of an index begins.
pub(crate) fn record_position(index: u16) -> usize
    ensures { result ≡ record_position index }
{
    HEADER + RECORD * usize::from(index)
}

/// The records after the header, as their bytes are.
pub(crate) fn raw_records(bytes: &[u8]) -> &[[u8; 5]]
    requires { length bytes.now ≡ file_length (count bytes.now) }
    ensures value { result.now ≡ raw_records bytes.now }
    ensures many { length result.now ≡ count bytes.now }
{
    bytes[HEADER..].as_chunks().0
}

/// By which records are ordered: kind, first number, second number.
// the raw bytes, which a search compares without reading them as a `Kind`
pub(crate) type Key = (u8, u8, u8);

/// A record as its bytes are, with its index.
#[derive(Clone, Copy)]
pub(crate) struct Entry {
    pub(crate) index: u16,
    // not checked yet: it may be no kind
    pub(crate) kind: u8,
    pub(crate) first: u8,
    pub(crate) second: u8,
    pub(crate) code: u16,
}

impl Entry {
    pub(crate) fn new(index: u16, raw: &[u8; 5]) -> Entry
        ensures { result ≡ entry_of index raw.now }
    {
        let &[kind, first, second, low, high] = raw;
        Entry {
            index,
            kind,
            first,
            second,
            code: u16::from_le_bytes([low, high]),
        }
    }

    pub(crate) fn key(self) -> Key
        ensures { result ≡ key self }
    {
        (self.kind, self.first, self.second)
    }
}
