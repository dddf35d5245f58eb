// Drafts and bytes: a draft packed into 273 bytes (64 entries of 4 bytes as in a table, the number of entries, 16 saved lengths), and its
// entries as a table for the other calls.
#![tactic(auto)]

ghost use Rattle.std.specs.Prelude.{◌≡◌, ◌+◌, ◌*◌, ◌≤◌, length};
ghost use Rattle.faults.specs.Verdict.{refusal};
ghost use Rattle.history.specs.Shown.{draft_in, Packs, BytesShow};
ghost use Rattle.history.specs.Answered.{Begins, Answers};
ghost use Rattle.draft_bytes.specs.Table.{Words, TableIs};

use draft::checking::check_draft;
use faults::{Fault, Verdict};
use history::{Draft, Step};
use std::array;
use table::entry::word_at;

// How many bytes a draft has, and where the number of entries and the saved lengths stand.
const BYTES: usize = 273;

const COUNT: usize = 256;

const SAVED: usize = 257;

// The draft in the bytes.
fn read(bytes: &[u8]) -> Draft
    requires { length bytes.now ≡ 273 }
    ensures { result ≡ draft_in bytes.now }
{
    Draft {
        entries: array::from_fn(|i| word_at(bytes, i)),
        saved: array::from_fn(|name| bytes[SAVED + name]),
        count: bytes[COUNT],
    }
}

// Writes words, 4 bytes each.
fn write_words(words: &[u32], bytes: &mut [u8])
    requires { 4 * length words.now ≤ length bytes.old }
    ensures { Words words.now (length words.now) bytes.old bytes.new }
{
    for (i, &word) in words.iter().enumerate() {
        packed::put(bytes, 4, i, u64::from(word));
    }
}

// Writes a draft.
fn write(draft: Draft, bytes: &mut [u8])
    requires { length bytes.old ≡ 273 }
    ensures { Packs draft bytes.new }
{
    write_words(&draft.entries, bytes);
    bytes[COUNT] = draft.count;
    bytes[SAVED..].copy_from_slice(&draft.saved);
}

// Makes the bytes a fresh draft; bytes of another length are refused.
pub fn begin(bytes: &mut [u8]) -> Verdict
    ensures { Begins bytes.old bytes.new (refusal result) }
{
    if bytes.len() != BYTES {
        return Err(Fault::Draft);
    }
    write(draft::new(), bytes);
    Ok(())
}

// Takes a step on the draft in the bytes. A refused step writes nothing.
pub fn step(bytes: &mut [u8], step: Step) -> Verdict
    ensures { Answers BytesShow step bytes.old bytes.new (refusal result) }
{
    if bytes.len() != BYTES {
        return Err(Fault::Draft);
    }
    let next = draft::step(read(bytes), step);
    next.verdict?;
    write(next.draft, bytes);
    Ok(())
}

// Writes the entries as the bytes of a table, and answers how many there are; the bytes behind stay as they were.
#[tactic(auto, using(crate::proofs::Tables::few_checked))]
pub fn table_of(draft: Draft, table: &mut [u8]) -> Result<usize, Fault>
    ensures { TableIs draft table.old table.new result }
{
    check_draft(draft)?;
    let entries = &draft.entries[..draft.count as usize];
    if table.len() < 4 * entries.len() {
        return Err(Fault::Space);
    }
    write_words(entries, table);
    Ok(entries.len())
}
