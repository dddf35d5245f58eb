// Typed answers: a text to the packed table that means what it reads. Document 02, P1.
#![tactic(auto)]

ghost use Rattle.std.specs.Prelude.{◌≡◌, ◌||◌, ltb};
ghost use Rattle.typed.specs.Reading.{ReadingIs};

pub mod pending;
pub mod writing;

use faults::Fault;
use survey::survey;
use writing::write;

// The longest text, in bytes, and the most entries of a table.
const MAX_BYTES: usize = 1024;

const MAX_ENTRIES: usize = 64;

// Whether a text that has a tree is over a limit: 12.
fn is_over(bytes: usize, entries: usize, over: bool) -> bool
    ensures { result ≡ ltb 1024 bytes || over || ltb 64 entries }
{
    MAX_BYTES < bytes || over || MAX_ENTRIES < entries
}

// Writes the table of a text, and answers how many entries it has: a fault is found before anything is written.
pub fn read(text: &[u8], table: &mut [u8]) -> Result<usize, Fault>
    ensures { ReadingIs text.now table.old table.new result }
{
    let Some(counted) = survey(text) else {
        return Err(Fault::TextGrammar);
    };
    if is_over(text.len(), counted.entries, counted.over) {
        return Err(Fault::TextLimit);
    }
    if table.len() < 4 * counted.entries {
        return Err(Fault::Space);
    }
    write(text, table);
    Ok(counted.entries)
}
