// What the search remembers, as it asks for it: the table of a policy at two probabilities, and one more table remembered.
//
// Its contracts cite `specs/State.antt` (work memory as the definition's state) and `specs/Recalled.antt`. The laws that crates above cite stand in
// `proofs/`.
#![tactic(auto)]

ghost use Rattle.std.specs.Prelude.{◌≡◌, ◌<◌, None};
ghost use Rattle.policies.specs.Array.{policy_at, Named};
ghost use Rattle.definition.specs.Tables.{probs};
ghost use Rattle.definition.specs.Refusals.{lookup};
ghost use Rattle.cache.specs.Slots.{slot_at, Kept};
ghost use Rattle.memory.specs.Layout.{table_count};
ghost use Rattle.table.specs.Rows.{Rows, TableHolds};
ghost use Rattle.search_state.specs.State.{Classed, Ready, stored_all};
ghost use Rattle.search_state.specs.Recalled.{Recalled, is_found, settles_with, Remembered};

use candidates::{Candidate, NotMade};
use closure::Closed;
use refusals::Refusal;
use table::Table;

// The table that is remembered of the policy that number r stands for.
pub fn recall(pol: &[u64], work: &[u64], r: usize, sat: f64, dissat: Option<f64>) -> Option<u16>
    requires { Classed pol.now × (Named pol.now r × Ready pol.now work.now) }
    ensures { Recalled pol.now work.now (policy_at pol.now r) (probs sat dissat) result }
{
    let class = classes::class_of(pol, r);
    cache::find(work, class as u16, sat, dissat)
}

// Whether a table is remembered of the policy that number r stands for.
fn remembers(pol: &[u64], work: &[u64], r: usize, sat: f64, dissat: Option<f64>) -> bool
    requires { Classed pol.now × (Named pol.now r × Ready pol.now work.now) }
    ensures { result ≡ is_found (lookup (policy_at pol.now r) (probs sat dissat) (stored_all pol.now work.now)) }
{
    recall(pol, work, r, sat, dissat).is_some()
}

// Whether the table that x was wrapped for is settled: x was made, and the policy's table without dissatisfaction, which was asked for, is remembered.
pub fn settles(
    pol: &[u64],
    work: &[u64],
    r: usize,
    sat: f64,
    dissat: Option<f64>,
    x: Result<Candidate, NotMade>,
) -> bool
    requires { Classed pol.now × (Named pol.now r × Ready pol.now work.now) }
    ensures { result ≡ settles_with x dissat (lookup (policy_at pol.now r) (probs sat None) (stored_all pol.now work.now)) }
{
    x.is_ok() && dissat.is_some() && remembers(pol, work, r, sat, None)
}

// Remembers a table of the policy that number r stands for; an empty one is refused.
pub fn remember(
    pol: &[u64],
    work: &mut [u64],
    r: usize,
    sat: f64,
    dissat: Option<f64>,
    c: Closed,
) -> Result<u16, Refusal>
    requires { Classed pol.now × (Named pol.now r × (Ready pol.now work.old × TableHolds work.old c.table)) }
    ensures { Remembered pol.now (policy_at pol.now r) (probs sat dissat) c result work.old work.new }
{
    c.end?;
    let table = c.table;
    if table.len == 0 {
        return Err(Refusal::LimitsExceeded);
    }
    let class = classes::class_of(pol, r);
    cache::store(work, class as u16, sat, dissat, table.entries, table.len).ok_or(
        Refusal::CacheFull,
    )
}

// The table of a slot.
pub fn table_of(work: &[u64], s: u16) -> Table
    requires { Kept work.now × (s < table_count work.now) }
    ensures { Rows result (slot_at work.now s).entries }
{
    let len = cache::length_of(work, s);
    let mut entries = [0u16; 128];
    for j in 0..len {
        entries[j] = cache::entry(work, s, j);
    }
    Table { entries, len }
}
