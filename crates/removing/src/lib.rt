// Removing a link.
#![tactic(auto)]

ghost use Rattle.std.specs.Prelude.{◌≡◌, ◌%◌, ◌<◌};
ghost use Rattle.fieldset.specs.Tables.{at};
ghost use Rattle.panel.specs.Items.{link_at};
ghost use Rattle.panel.specs.Panels.{dropped};
ghost use Rattle.panel.specs.Answers.{reply_bytes};
ghost use Rattle.panel.specs.Commands.{check_reply, check_remove, removing};
ghost use Rattle.panel.specs.Legal.{Legal};
ghost use Rattle.panel.specs.Outcomes.{Decides};
ghost use Rattle.tables.specs.Tables.{TablesOf};
ghost use Rattle.removing.specs.Choice.{OfField, chosen_of};
ghost use Rattle.removing.specs.Settled.{Settles};
ghost use Rattle.removing.specs.Scans.{scan_count};

use fieldset::{below, only};
use panel::{LAST_LINK, Link, Panel, Refusal, Reply, STAY, Standing, Step, no_link, unchanged};
use reversal::{Verdict, decide, step_of};
use scanning::{Blocked, scan_without};
use strength::top_of;
use tables::Tables;

// The reply of the checks of a removal, on a panel of n fields; `used` where the number is in use.
fn check_remove(n: usize, id: u8, used: bool) -> Reply
    ensures { reply_bytes result ≡ check_reply (check_remove n id used) }
{
    if n == 0 {
        return Err(Refusal::NotOpen);
    }
    if LAST_LINK < id {
        return Err(Refusal::BadLink);
    }
    if !used {
        return Err(Refusal::NoSuchLink);
    }
    Ok(0)
}

// The link or stay that a scan finds: its number as a setter, its outputs and covered fields.
#[derive(Clone, Copy)]
struct Chosen {
    number: u8,
    outputs: u64,
    covered: u64,
}

// What a scan finds.
fn choose(b: Blocked) -> Chosen
    requires { OfField b }
    ensures { result ≡ chosen_of b }
{
    match b {
        Blocked::Link(i, l) => Chosen {
            number: i,
            outputs: l.outputs,
            covered: l.covered,
        },
        Blocked::Stay(f) => {
            let set = only(usize::from(f));
            Chosen {
                number: STAY,
                outputs: set,
                covered: set,
            }
        }
    }
}

// What is to be done once a link is dropped, and the number of the link or stay that it is done for.
#[derive(Clone, Copy)]
pub struct Decision {
    pub verdict: Verdict,
    pub number: u8,
}

// What is to be done once the link that sets v is dropped and v's stay sets v. The tables become those of the panel without the link, `worked` becomes
// the number of strengths that were worked out for the scan, and a path that is to be reversed stands in the buffer.
// The contract rules out, for instance, a blocked link that does not set and the number of the freed field for the count (must-fail:
// blocked_link_does_not_set, field_for_the_count).
pub fn settle(
    p: &Panel,
    v: usize,
    tables: &mut Tables,
    path: &mut [u8; 64],
    worked: &mut u8,
) -> Decision
    requires { Legal p.now × TablesOf p.now tables.old × (v < 64) × (at p.now.setter v < 128) }
    ensures settles { Settles p.now (at p.now.setter v) v path.new result.number result.verdict }
    ensures tabled { TablesOf (dropped p.now (at p.now.setter v)) tables.new }
    ensures worked_after { worked.new ≡ p.now.size }
{
    let n = p.size;
    let mut table = [0; 64];
    let found = scan_without(p, v, tables, &mut table);
    *worked = found.worked;
    let Some(blocked) = found.blocked else {
        return Decision {
            verdict: Verdict::Free,
            number: STAY,
        };
    };
    let b = choose(blocked);
    let top = top_of(&table, b.outputs);
    let verdict = decide(
        &tables.levels,
        &tables.others,
        &table,
        n,
        below(n),
        top,
        b.outputs,
        b.covered,
        &tables.reads,
        path,
    );
    Decision {
        verdict,
        number: b.number,
    }
}

// Decides on removing a link; `old` is the link that stands under its number. Where the removal makes a scan, `worked`
// becomes the number of strengths that were worked out for it.
// The contract rules out, for instance, a freed field that is not counted and a Conflict for a loop (must-fail: freed_field_not_counted,
// loop_is_a_conflict).
pub fn remove(
    p: &Panel,
    old: Link,
    tables: &Tables,
    id: u8,
    path: &mut [u8; 64],
    worked: &mut u8,
) -> Step
    requires { Legal p.now × TablesOf p.now tables.now × (old ≡ link_at p.now.links (id % 128)) }
    ensures decides { Decides p.now (id % 128) (removing id) path.new result }
    ensures worked_after { worked.new ≡ scan_count worked.old p.now id }
{
    let n = p.size;
    let reply = check_remove(n, id, old.used);
    if reply.is_err() {
        return unchanged(n, &p.place, old, reply);
    }
    let s = old.standing;
    let Standing::Holding(h) = s else {
        return step_of(Verdict::Free, n, &p.place, no_link(), s, STAY);
    };
    let mut fresh = *tables;
    let settled = settle(p, usize::from(h), &mut fresh, path, worked);
    let verdict = settled.verdict;
    if let Verdict::Looped = verdict {
        return unchanged(n, &p.place, old, Err(Refusal::Loop));
    }
    step_of(verdict, n, &p.place, no_link(), s, settled.number)
}
