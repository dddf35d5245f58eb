// What each kind gives, and each field of it, at its borders.
use crate::case::one;
use vectors::entries::pack;
use vectors::tally::Tally;

// What each kind from 0 to 15 gives with all fields 0, in entry 0 and in entry 63: the reference 0 is not smaller than
// 0, and smaller than 63.
const KIND_IN_0: [u8; 16] = [0, 0, 0, 4, 4, 4, 4, 4, 2, 2, 2, 2, 2, 2, 2, 2];

const KIND_IN_63: [u8; 16] = [0, 0, 0, 0, 0, 0, 0, 0, 2, 2, 2, 2, 2, 2, 2, 2];

// A kind alone, at the start of 64 entries, and at their end.
fn kind_cases(before: Tally, kind: u32) -> Tally {
    let at = (kind % 16) as usize;
    let entry = pack(kind, 0, 0, 0, 0);
    let mut tally = one(before, 4, 0, entry, KIND_IN_0[at]);
    tally = one(tally, 256, 0, entry, KIND_IN_0[at]);
    one(tally, 256, 63, entry, KIND_IN_63[at])
}

pub fn kinds(before: Tally) -> Tally {
    let mut tally = before.subject(2000);
    for kind in 0..16 {
        tally = kind_cases(tally, kind);
    }
    tally
}

#[derive(Clone, Copy)]
enum Field {
    Name,
    First,
    Second,
    Grade,
}

impl Field {
    // Whether a kind from 0 to 7 uses the field.
    fn is_used_by(self, kind: u32) -> bool {
        match self {
            Field::Name => matches!(kind, 2 | 6 | 7),
            Field::First => 3 <= kind,
            Field::Second => matches!(kind, 4 | 5),
            Field::Grade => matches!(kind, 6 | 7),
        }
    }

    // The highest value that entry 63 may use in the field.
    fn highest(self) -> u32 {
        match self {
            Field::Name | Field::Grade => 255,
            Field::First | Field::Second => 62,
        }
    }

    // An entry with a value in this field alone.
    fn entry(self, kind: u32, value: u32) -> u32 {
        match self {
            Field::Name => pack(kind, value, 0, 0, 0),
            Field::First => pack(kind, 0, value, 0, 0),
            Field::Second => pack(kind, 0, 0, value, 0),
            Field::Grade => pack(kind, 0, 0, 0, value),
        }
    }
}

// A value in one field of entry 63: accepted if the kind uses the field.
fn field_case(tally: Tally, kind: u32, field: Field, value: u32) -> Tally {
    let expected = if field.is_used_by(kind) { 0 } else { 3 };
    one(tally, 256, 63, field.entry(kind, value), expected)
}

// The field's highest value, and each of its bits alone, from the highest down.
fn field_cases(before: Tally, kind: u32, field: Field) -> Tally {
    let mut tally = field_case(before, kind, field, field.highest());
    for bit in [128, 64, 32, 16, 8, 4, 2, 1] {
        if bit <= field.highest() {
            tally = field_case(tally, kind, field, bit);
        }
    }
    tally
}

pub fn fields(before: Tally) -> Tally {
    let mut tally = before.subject(3000);
    for kind in 0..8 {
        for field in [Field::Name, Field::First, Field::Second, Field::Grade] {
            tally = field_cases(tally, kind, field);
        }
    }
    tally
}

// Every used field at its highest value at once.
pub fn full_fields(before: Tally) -> Tally {
    let mut tally = before.subject(4000);
    tally = one(tally, 256, 63, pack(2, 255, 0, 0, 0), 0);
    tally = one(tally, 256, 63, pack(3, 0, 62, 0, 0), 0);
    tally = one(tally, 256, 63, pack(4, 0, 62, 62, 0), 0);
    tally = one(tally, 256, 63, pack(5, 0, 62, 62, 0), 0);
    tally = one(tally, 256, 63, pack(6, 255, 62, 0, 255), 0);
    tally = one(tally, 256, 63, pack(7, 255, 62, 0, 255), 0);
    // A name or a grade may be larger than the entry's number: it is no reference.
    tally = one(tally, 4, 0, pack(2, 255, 0, 0, 0), 0);
    tally = one(tally, 8, 1, pack(6, 255, 0, 0, 255), 0);
    one(tally, 8, 1, pack(7, 255, 0, 0, 255), 0)
}
