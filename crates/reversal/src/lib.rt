// Deciding on the reversal of a path, over the tables of a panel's setters.
#![tactic(auto)]

ghost use Rattle.std.specs.Prelude.{◌≡◌, take};
ghost use Rattle.panel.specs.Outcomes.{PathOf};
ghost use Rattle.reversal.specs.Reversals.{reversed_reads, fields_of, with_path, resolved_path, Undecided, Decided, Unresolved, Resolved, HeldField, held_field, step_of};

use fieldset::{only, union, with, without};
use keeping::loops_through;
use panel::{Link, STAY, Standing, Step};
use strength::{greatest, lowest_at, path_from};

// What is to be done for an item: nothing where it is not blocked; else its path is reversed, which has so many fields, these, unless
// there is a loop then.
#[derive(Clone, Copy)]
pub enum Verdict {
    Free,
    Looped,
    Path(usize, u64),
}

// The read fields after a path is reversed: `covered` are the covered fields of what sets its first field.
fn reverse_reads(reads: &mut [u64; 64], covered: u64, path: &[u8; 64], count: usize)
    requires { PathOf path.now count }
    ensures { reads.new ≡ reversed_reads reads.old covered (take count path.now) }
{
    let mut cover = covered;
    for &field in &path[..count] {
        let f = usize::from(field);
        let old = with(reads[f], f);
        reads[f] = without(cover, f);
        cover = old;
    }
}

// The set of a path's fields.
fn path_fields(path: &[u8; 64], count: usize) -> u64
    requires { PathOf path.now count }
    ensures { result ≡ fields_of (take count path.now) }
{
    let mut set = 0;
    for &f in &path[..count] {
        set = with(set, usize::from(f));
    }
    set
}

// The tables come one by one here and in `resolve`: a touch goes by its new levels and the panel's other tables.
// Finds the reversible path for a blocked item with these outputs and covered fields, from its lowest-numbered output of the strength s, and
// whether there is a loop when it is reversed.
pub fn decide(
    levels: &[u8; 64],
    others: &[u64; 64],
    table: &[u8; 64],
    n: usize,
    known: u64,
    s: u8,
    outputs: u64,
    covered: u64,
    reads: &[u64; 64],
    path: &mut [u8; 64],
) -> Verdict
    requires { Undecided levels.now others.now table.now n known s outputs covered reads.now path.old }
    ensures decided { Decided levels.now others.now n s outputs covered reads.now path.new result }
    ensures path_after { path.new ≡ with_path levels.now others.now n s outputs path.old }
{
    let v = lowest_at(table, s, outputs);
    let count = path_from(levels, others, table, n, known, v, path);
    let mut after = *reads;
    reverse_reads(&mut after, covered, path, count);
    let set = path_fields(path, count);
    if loops_through(&after, n, set) {
        return Verdict::Looped;
    }
    Verdict::Path(count, set)
}

// What is to be done for an item that waits, with this level, these outputs and covered fields.
pub fn resolve(
    levels: &[u8; 64],
    others: &[u64; 64],
    reads: &[u64; 64],
    n: usize,
    level: u8,
    outputs: u64,
    covered: u64,
    path: &mut [u8; 64],
) -> Verdict
    requires { Unresolved others.now n outputs covered reads.now path.old }
    ensures resolved { Resolved levels.now others.now n level outputs covered reads.now path.new result }
    ensures path_after { path.new ≡ resolved_path levels.now others.now n level outputs path.old }
{
    let mut table = [0u8; 64];
    let top = greatest(levels, others, n, outputs, &mut table);
    let s = top.strength;
    if s <= level {
        return Verdict::Free;
    }
    decide(
        levels, others, &table, n, top.known, s, outputs, covered, reads, path,
    )
}

// The set of the field that an item of this standing holds.
fn held_field(s: Standing) -> u64
    requires { HeldField s }
    ensures { result ≡ held_field s }
{
    match s {
        Standing::Waiting => 0,
        Standing::Holding(v) => only(usize::from(v)),
    }
}

// The step that leaves so many fields, these places and this link, gives free what a link of this standing held, and reverses the path for the item
// of the number c. The fields that are given free and those of the path get another setter.
pub fn step_of(
    verdict: Verdict,
    n: usize,
    place: &[u8; 64],
    link: Link,
    held: Standing,
    c: u8,
) -> Step
    requires { HeldField held }
    ensures { result ≡ step_of verdict n place.now link held c }
{
    let (setter, count, fields) = match verdict {
        Verdict::Path(count, fields) => (c, count, fields),
        Verdict::Free | Verdict::Looped => (STAY, 0, 0),
    };
    Step {
        reply: Ok(0),
        size: n,
        place: *place,
        link,
        freed: held,
        setter,
        count,
        changed: union(fields, held_field(held)),
        revalued: 0,
    }
}
