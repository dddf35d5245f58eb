// What the calls on entries of a table share: their checks, and the clearing of the words worked in.
ghost use Rattle.std.specs.Prelude.{◌≡◌, ◌<◌, ◌≤◌, max, length};
ghost use Rattle.faults.specs.Verdict.{accepted};
ghost use Rattle.table.specs.Check.{table_verdict};
ghost use Rattle.table.specs.Entry.{entry_in, size};
ghost use Rattle.table.specs.Formulas.{depth_at};
ghost use Rattle.decision.specs.Call.{pair_verdict, NeededIs, Cleared};

use faults::{Fault, Verdict};

// Makes the first n words 0. Only those that are not are written, which is quicker where most are 0.
pub fn clear(words: &mut [u64], n: usize)
    requires { n ≤ length words.old }
    ensures { Cleared n words.old words.new }
{
    for word in &mut words[..n] {
        if *word != 0 {
            *word = 0;
        }
    }
}

// The greater depth of two entries, of which one may be both.
pub fn pair_depth(table: &[u8], a: usize, b: usize) -> usize
    requires { (table_verdict table.now ≡ accepted) × (a < size table.now) × (b < size table.now) }
    ensures { result ≡ max (depth_at (entry_in table.now) a) (depth_at (entry_in table.now) b) }
{
    let n = table.len() / 4;
    let depth = table::depth::depths(table, n);
    depth[a].max(depth[b]) as usize
}

// The words that a call on two entries has to be lent, document 01's W; or its first fault, whatever words it is lent.
pub fn words_for(table: &[u8], a: usize, b: usize) -> Result<usize, Fault>
    ensures { NeededIs table.now a b result }
{
    table::checking::check(table)?;
    let n = table.len() / 4;
    if n <= a || n <= b {
        return Err(Fault::EntryNumber);
    }
    let depth = pair_depth(table, a, b);
    Ok(table::space::work_words(table, depth))
}

// The first fault of a call on two entries with this many lent words.
pub fn checked(table: &[u8], a: usize, b: usize, words: usize) -> Verdict
    ensures { result ≡ pair_verdict table.now a b words }
{
    if words < words_for(table, a, b)? {
        return Err(Fault::Space);
    }
    Ok(())
}
