// Where the masks of a table stand: a place for each fact and each relation that its entries ask for, given out once.
ghost use Rattle.std.specs.Prelude.{◌≡◌, Bool, Some, ℕ, ◌+◌, ◌*◌, ◌≤◌, ◌<◌, length, get_or};
ghost use Rattle.structure.specs.Masks.{Layout};
ghost use Rattle.table.specs.Entry.{entry_in, size};
ghost use Rattle.truth_table.specs.Masks.{Asks, Laid, PartLaid, Extended};

use packed::item_or;
use structure::read::key;
use table::entry;
use table::entry::Entry;
use table::kind::Kind;

// The words of the masks: a row for each entry and one besides, of 64 worlds.
pub const MAX_WORDS: usize = 4160;

// Some entries of a table that are laid out at once, `from` to before `to`: how many levels there are, and how many words
// the rows take at each.
#[derive(Clone, Copy)]
pub struct Part {
    pub from: usize,
    pub to: usize,
    pub levels: usize,
    pub used: usize,
}

// Gives the fact or the relation a place behind those that are used, unless it has one. The words used then.
fn place(relation: bool, name: u32, worlds: usize, used: usize, places: &mut [u16; 512]) -> usize
    requires { (name < 256) × (1 ≤ worlds) × (worlds ≤ 64) × (worlds ≤ used) × (used ≤ 4160) × Layout worlds used places.old }
    ensures { (used ≤ result) × (result ≤ used + worlds) × Extended worlds result relation name places.old places.new }
{
    let k = key(relation, name);
    if places[k] != 0 {
        return used;
    }
    places[k] = used as u16;
    if relation { used + worlds } else { used + 1 }
}

// What an entry asks for: a relation, or else a fact. No table that is accepted has a kind from 8 on.
fn asked(e: Entry) -> Option<bool>
    ensures { (k : Bool) → Asks e k → result ≡ Some k }
{
    match Kind::of(e.kind) {
        Some(Kind::True | Kind::False | Kind::Not | Kind::And | Kind::Or) => None,
        Some(Kind::Fact) => Some(false),
        Some(Kind::AtLeast | Kind::AtMost) | None => Some(true),
    }
}

// Gives entry i the row of what it asks for, if it asks for anything. The words used then.
fn place_entry(
    table: &[u8],
    i: usize,
    worlds: usize,
    used: usize,
    places: &mut [u16; 512],
    rows: &mut [u16; 64],
) -> usize
    requires { (i < 64) × (1 ≤ worlds) × (worlds ≤ 64) × (worlds ≤ used) × (used ≤ 4160)
        × Layout worlds used places.old }
    ensures { (used ≤ result) × (result ≤ used + worlds)
        × ((from : ℕ) → Laid (entry_in table.now) from i worlds used places.old rows.old
        → Laid (entry_in table.now) from (i + 1) worlds result places.new rows.new) }
{
    let e = entry::entry_at(table, i);
    let Some(relation) = asked(e) else {
        return used;
    };
    let next = place(relation, e.name, worlds, used, places);
    rows[i] = item_or(places, key(relation, e.name), 0);
    next
}

// Lays out the rows of the entries from `from` on, as many as fit into the words of each level, in places and rows that are
// zeros. The first `worlds` words are left for what no entry asks for.
pub fn place_part(
    table: &[u8],
    from: usize,
    worlds: usize,
    levels: usize,
    places: &mut [u16; 512],
    rows: &mut [u16; 64],
) -> Part
    requires { (from < size table.now) × (size table.now ≤ 64) × (1 ≤ worlds) × (worlds ≤ 64) × (1 ≤ levels) × (levels ≤ 4)
        × ((p : ℕ) → get_or places.old p 0 ≡ 0) }
    ensures { (result.from ≡ from) × (result.levels ≡ levels) × (from < result.to)
        × PartLaid table.now worlds result places.new rows.new }
{
    let n = table.len() / 4;
    let mut used = worlds;
    for i in from..n {
        if MAX_WORDS < levels * (used + worlds) {
            return Part {
                from,
                to: i,
                levels,
                used,
            };
        }
        used = place_entry(table, i, worlds, used, places, rows);
    }
    Part {
        from,
        to: n,
        levels,
        used,
    }
}
