// Tables for the cases, packed as document 01 says. Bytes that are all 0 are entries "true".

// Room for 65 entries, one more than a table may have.
pub type Room = [u8; 260];

// An entry's 32 bits from its fields, in document 01's order.
pub fn pack(kind: u32, name: u32, first: u32, second: u32, grade: u32) -> u32 {
    (kind % 16) * 0x1000_0000
        + (name % 256) * 0x10_0000
        + (first % 64) * 0x4000
        + (second % 64) * 0x100
        + grade % 256
}

// The entries of document 01, by their kinds. A reference is the number of an earlier entry.
pub const TRUE: u32 = 0;

pub const FALSE: u32 = 0x1000_0000;

pub fn fact(name: u32) -> u32 {
    pack(2, name, 0, 0, 0)
}

pub fn not(first: u32) -> u32 {
    pack(3, 0, first, 0, 0)
}

pub fn and(first: u32, second: u32) -> u32 {
    pack(4, 0, first, second, 0)
}

pub fn or(first: u32, second: u32) -> u32 {
    pack(5, 0, first, second, 0)
}

pub fn at_least(grade: u32, relation: u32, first: u32) -> u32 {
    pack(6, relation, first, 0, grade)
}

pub fn at_most(grade: u32, relation: u32, first: u32) -> u32 {
    pack(7, relation, first, 0, grade)
}

// Writes entry number i, most significant bit first, where there is room for it.
pub fn put(table: &mut Room, i: usize, entry: u32) {
    if i < 65 {
        table[4 * i..4 * i + 4].copy_from_slice(&entry.to_be_bytes());
    }
}

// Facts only, each of its own name.
pub fn facts() -> Room {
    let mut table = [0u8; 260];
    for name in 0..65 {
        put(&mut table, name as usize, fact(name));
    }
    table
}

// A fact, and above it entries of two kinds in turn, each with the entry before it as its first.
pub fn chain(odd: u32, even: u32, name: u32, grade: u32) -> Room {
    let mut table = [0u8; 260];
    put(&mut table, 0, fact(1));
    for first in 0..64 {
        let kind = if first % 2 == 0 { odd } else { even };
        put(
            &mut table,
            first as usize + 1,
            pack(kind, name, first, 0, grade),
        );
    }
    table
}
