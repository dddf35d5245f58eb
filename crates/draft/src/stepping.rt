// What a step makes of a draft, if it is not refused.
ghost use Rattle.std.specs.Prelude.{◌≡◌, ◌<◌, ◌≤◌, get_or};
ghost use Rattle.faults.specs.Verdict.{accepted};
ghost use Rattle.history.specs.declared.Step.TheVariants.{Add, Save, Back};
ghost use Rattle.history.specs.Stepping.{step_verdict, up_to, stepped};

use history::{Draft, NOT_SAVED, Step};

fn with_entry(mut draft: Draft, entry: u32) -> Draft
    requires { draft.count < 64 }
    ensures { result ≡ stepped (Add entry) draft }
{
    draft.entries[draft.count as usize] = entry;
    draft.count += 1;
    draft
}

fn with_name(mut draft: Draft, name: u8) -> Draft
    requires { name ≤ 15 }
    ensures { result ≡ stepped (Save name) draft }
{
    draft.saved[name as usize] = draft.count;
    draft
}

// Forgets the names that were saved with more entries.
fn forget(saved: &mut [u8; 16], many: u8)
    ensures { saved.new ≡ up_to many saved.old }
{
    for length in saved {
        if many < *length {
            *length = NOT_SAVED;
        }
    }
}

fn back_to(mut draft: Draft, name: u8) -> Draft
    requires { (name ≤ 15) × (get_or draft.saved name 0 ≤ 64) }
    ensures { result ≡ stepped (Back name) draft }
{
    let many = draft.saved[name as usize];
    draft.entries[many as usize..].fill(0);
    forget(&mut draft.saved, many);
    draft.count = many;
    draft
}

pub fn taken(draft: Draft, step: Step) -> Draft
    requires { step_verdict step draft ≡ accepted }
    ensures { result ≡ stepped step draft }
{
    match step {
        Step::Add(entry) => with_entry(draft, entry),
        Step::Save(name) => with_name(draft, name),
        Step::Back(name) => back_to(draft, name),
    }
}
