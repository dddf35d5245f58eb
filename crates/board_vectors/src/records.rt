// Structures for the cases, packed record by record as document 01 says.

// Room for 1,025 records, one more than a structure may have.
pub type Packed = [u8; 3075];

// The first `length` bytes are the structure.
#[derive(Clone, Copy)]
pub struct Records {
    pub bytes: Packed,
    pub length: usize,
}

// The 24 bits of the records of each kind. A header has the number of worlds, packed less 1.
pub fn header(worlds: u32) -> u32 {
    worlds.wrapping_sub(1) % 64 * 0x1_0000
}

pub fn fact_record(world: u32, name: u32) -> u32 {
    0x40_0000 + world % 64 * 0x1_0000 + name % 256 * 0x100
}

pub fn link_record(from: u32, relation: u32, to: u32) -> u32 {
    0x80_0000 + from % 64 * 0x1_0000 + relation % 256 * 0x100 + to % 64 * 4
}

impl Records {
    pub fn none() -> Records {
        Records {
            bytes: [0u8; 3075],
            length: 0,
        }
    }

    // A structure of so many worlds, of which nothing is stated yet.
    pub fn of(worlds: u32) -> Records {
        Records::none().record(header(worlds))
    }

    // One more record, most significant bit first, where there is room for it.
    pub fn record(self, bits: u32) -> Records {
        let at = self.length;
        let mut bytes = self.bytes;
        if 3072 < at {
            return self;
        }
        bytes[at..at + 3].copy_from_slice(&bits.to_be_bytes()[1..]);
        Records {
            bytes,
            length: at + 3,
        }
    }

    pub fn fact(self, world: u32, name: u32) -> Records {
        self.record(fact_record(world, name))
    }

    pub fn link(self, from: u32, relation: u32, to: u32) -> Records {
        self.record(link_record(from, relation, to))
    }

    // A link of 1 to 4 copies.
    pub fn links(self, from: u32, relation: u32, to: u32, copies: u32) -> Records {
        self.record(link_record(from, relation, to) | copies.wrapping_sub(1) % 4)
    }

    // The same bytes, so many of them.
    pub fn cut(self, length: usize) -> Records {
        Records { length, ..self }
    }
}
