// A settings block made of the worked store's with changes, and the number that it gets.
use settings::{ParseError, Settings};
use std::{fmt, io};

// What a block is made of: its fields in order, the length field, the version, and how many of its bytes there are.
#[derive(Clone, Copy)]
struct Values {
    fields: [u32; 17],
    length: u16,
    version: u8,
    bytes: usize,
}

// The values of the worked store.
const WORKED: Values = Values {
    fields: [0, 1, 32, 4, 4, 1, 4, 64, 8, 0, 8, 8, 200, 0, 1, 200, 4],
    length: 69,
    version: 1,
    bytes: 71,
};

// Values of a block that is accepted, in which no two fields are the same.
const DISTINCT: Values = Values {
    fields: [
        65472, 256, 200, 8, 2048, 40, 12, 70001, 66002, 4003, 3004, 2005, 6200006, 50007, 2,
        12600008, 63,
    ],
    length: 69,
    version: 1,
    bytes: 71,
};

// A change of one value. The fields are 1 to 17.
#[derive(Clone, Copy)]
pub enum Change {
    Field(usize, u32),
    Length(u16),
    Version(u8),
    Bytes(usize),
}

impl fmt::Display for Change {
    fn fmt<W: fmt::Write>(&self, f: &mut fmt::Formatter<W>) -> fmt::Result {
        match self {
            Change::Field(i, x) => write!(f, "{i}={x}"),
            Change::Length(x) => write!(f, "length={x}"),
            Change::Version(x) => write!(f, "version={x}"),
            Change::Bytes(x) => write!(f, "bytes={x}"),
        }
    }
}

impl Values {
    fn change(&mut self, change: Change) {
        match change {
            Change::Field(i, x) => {
                if 1 <= i && i <= 17 {
                    self.fields[i - 1] = x;
                }
            }
            Change::Length(x) => self.length = x,
            Change::Version(x) => self.version = x,
            Change::Bytes(x) => self.bytes = x,
        }
    }

    // The block, big-endian, and a byte after it.
    fn block(&self) -> [u8; 72] {
        let mut block = [0; 72];
        block[..2].copy_from_slice(&self.length.to_be_bytes());
        block[2] = self.version;
        for i in 0..17 {
            block[4 * i + 3..4 * i + 7].copy_from_slice(&self.fields[i].to_be_bytes());
        }
        block
    }

    // What the block's first bytes give.
    fn parse(&self) -> Result<Settings, ParseError> {
        let block = self.block();
        let n = self.bytes.min(block.len());
        settings::parse(&block[..n])
    }
}

// The number of a refusal.
fn number_of(e: ParseError) -> u64 {
    match e {
        ParseError::Block => 2,
        ParseError::Field => 3,
    }
}

// Prints the line of the worked store's block with these changes.
pub fn case(rt: &impl Print, row: &[Change]) -> io::Result<()> {
    print!(rt; "settings")?;
    let mut v = WORKED;
    for change in row {
        v.change(*change);
        print!(rt; " {change}")?;
    }
    let number = match v.parse() {
        Ok(_) => 0,
        Err(e) => number_of(e),
    };
    print!(rt; " -> {number}\n")
}

// The settings in the order of the block.
fn fields_of(st: Settings) -> [usize; 17] {
    [
        st.globalAt,
        st.segments,
        st.headerSize,
        st.slotSize,
        st.slots,
        st.keyBits,
        st.chunkBits,
        st.lookupSize,
        st.freeListSize,
        st.innerOffset,
        st.chunks,
        st.chunkSize,
        st.tierSize,
        st.bulkInner,
        st.bulkTiers,
        st.bulkSize,
        st.mostChunks,
    ]
}

// Prints the settings that an accepted block gives.
pub fn accepted(rt: &impl Print) -> io::Result<()> {
    print!(rt; "settings fields")?;
    match DISTINCT.parse() {
        Ok(st) => {
            for x in fields_of(st) {
                print!(rt; " {x}")?;
            }
        }
        Err(e) => print!(rt; " {}", number_of(e))?,
    }
    print!(rt; "\n")
}
