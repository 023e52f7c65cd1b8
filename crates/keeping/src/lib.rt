// Downstream sets and direct readers kept from one state to the next, and the loop test that goes through changed fields only.
#![tactic(auto)]

ghost use Rattle.std.specs.Prelude.{◌≡◌, false, ◌≤◌, ◌<◌, length, set};
ghost use Rattle.fieldset.specs.Tables.{at};
ghost use Rattle.fieldset.specs.Fields.{without, below, Within};
ghost use Rattle.ordering.specs.Order.{has_loop};
ghost use Rattle.ordering.specs.Walks.{Among};
ghost use Rattle.ordering.specs.Steps.{Mapped};
ghost use Rattle.downstream.specs.Downstream.{downstreams, directs};
ghost use Rattle.keeping.specs.Keeping.{upstream, loops_through, Kept, Differ, differing, Right, Repaired};

use downstream::gather;
use fieldset::{fields_of, first, meets, member, minus, union, with, without};
use ordering::{enter_readers, map_entries};

// The tables that are kept from one state to the next.
#[derive(Drop)]
pub struct KeptTables {
    // for each field the fields that its setter reads, by which the others are worked out
    pub shown: [u64; 64],
    // for each field those that read it directly
    pub readers: [u64; 64],
    // for each field its downstream set
    pub down: [u64; 64],
}

// The set, and the fields that have a field of it downstream.
fn upstream(reads: &[u64; 64], n: usize, set: u64) -> u64
    requires { Among reads.now n × Within set (below n) }
    ensures { result ≡ upstream (at reads.now) n set }
{
    let mut seen = 0u64;
    let mut rest = set;
    // not by `fields_of`: the set gains fields on the way
    while rest != 0 {
        let f = first(rest);
        seen = with(seen, f);
        rest = minus(union(rest, reads[f]), seen);
    }
    seen
}

// Whether a loop goes through a changed field. Where the old reads have no loop, this says whether the new ones have one.
pub fn loops_through(reads: &[u64; 64], n: usize, changed: u64) -> bool
    requires { Among reads.now n × Within changed (below n) }
    ensures { result ≡ loops_through (at reads.now) n changed }
{
    for c in fields_of(changed) {
        if member(upstream(reads, n, reads[c]), c) {
            return true;
        }
    }
    false
}

// The fields of `stale` whose entries in the two tables differ.
fn differing(shown: &[u64; 64], reads: &[u64; 64], stale: u64) -> u64
    ensures { result ≡ differing (at shown.now) (at reads.now) stale }
{
    let mut out = 0u64;
    for f in fields_of(stale) {
        if shown[f] != reads[f] {
            out = with(out, f);
        }
    }
    out
}

// Strikes the field c out of the set of readers of each of some fields.
fn strike_reader(c: usize, fields: u64, readers: &mut [u64; 64])
    requires { (c < 64) × (length readers.old ≡ 64) }
    ensures { (length readers.new ≡ 64) × Mapped (λ m. without m c) fields readers.old readers.new }
{
    map_entries(fields, readers, |_, m| without(m, c));
}

// Shows new reads of one field, and brings the direct readers up to them.
fn renew(c: usize, new: u64, n: usize, shown: &mut [u64; 64], readers: &mut [u64; 64])
    requires { (n ≤ 64) × (c < n) × (length shown.old ≡ 64) × (readers.old ≡ directs (at shown.old) n) }
    ensures { (shown.new ≡ set shown.old c new) × (readers.new ≡ directs (at shown.new) n) }
{
    let old = shown[c];
    strike_reader(c, minus(old, new), readers);
    enter_readers(c, minus(new, old), readers);
    shown[c] = new;
}

// Shows the new reads of some fields, and brings the direct readers up to them.
fn reread(reads: &[u64; 64], n: usize, changed: u64, shown: &mut [u64; 64], readers: &mut [u64; 64])
    requires n_bound { (n ≤ 64) × (length shown.old ≡ 64) × (length reads.now ≡ 64) × (readers.old ≡ directs (at shown.old) n) }
    requires within { Within changed (below n) × Differ changed shown.old reads.now }
    ensures { (shown.new ≡ reads.now) × (readers.new ≡ directs (at reads.now) n) }
{
    for c in fields_of(changed) {
        renew(c, reads[c], n, shown, readers);
    }
}

// One pass over a set of fields whose entries are stale: works out those that no stale field reads.
fn pass(reads: &[u64; 64], n: usize, readers: &[u64; 64], set: u64, down: &mut [u64; 64]) -> u64
    requires { (n ≤ 64) × (readers.now ≡ directs (at reads.now) n) × Right (at reads.now) n set down.old }
    ensures { Repaired (at reads.now) n set result down.new }
{
    let mut left = set;
    for f in fields_of(set) {
        let direct = readers[f];
        if !meets(direct, left) {
            down[f] = gather(direct, down);
            left = without(left, f);
        }
    }
    left
}

// Works out the entries of a set of fields, where all other entries are right.
fn repair(reads: &[u64; 64], n: usize, readers: &[u64; 64], stale: u64, down: &mut [u64; 64])
    requires n_bound { (n ≤ 64) × (has_loop (at reads.now) n ≡ false) }
    requires readers_value { (readers.now ≡ directs (at reads.now) n) × Right (at reads.now) n stale down.old }
    ensures { down.new ≡ downstreams (at reads.now) n }
{
    let mut left = stale;
    while left != 0 {
        left = pass(reads, n, readers, left, down);
    }
}

// Brings the kept tables up to new reads, which may differ from the kept ones in the fields of `stale` only.
pub fn refresh(reads: &[u64; 64], n: usize, stale: u64, kept: &mut KeptTables)
    requires kept { Kept n kept.old.shown kept.old.readers kept.old.down × (length reads.now ≡ 64) × Among reads.now n × (has_loop (at reads.now) n ≡ false) }
    requires within { Within stale (below n) × Differ stale kept.old.shown reads.now }
    ensures { (kept.new.shown ≡ reads.now) × Kept n reads.now kept.new.readers kept.new.down }
{
    let changed = differing(&kept.shown, reads, stale);
    if changed == 0 {
        return;
    }
    let before = upstream(&kept.shown, n, changed);
    reread(reads, n, changed, &mut kept.shown, &mut kept.readers);
    let after = upstream(reads, n, changed);
    let affected = union(before, after);
    repair(reads, n, &kept.readers, affected, &mut kept.down);
}
