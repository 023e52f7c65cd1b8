// Strengths of fields and the reversible path, over small tables of one entry for each field: `levels` has the level of its setter,
// `others` the set of its setter's other outputs.
#![tactic(auto)]

ghost use Rattle.std.specs.Prelude.{◌≡◌, true, eqb, ◌++◌, ◌<◌, length, drop};
ghost use Rattle.fieldset.specs.Tables.{at, tabulate};
ghost use Rattle.fieldset.specs.Fields.{member, below, filter, Within};
ghost use Rattle.strength.specs.Strength.{greatest, strength, lowest_at};
ghost use Rattle.strength.specs.Filling.{Acyclic, Strengths, Fillable, Filled, Topped, PathFound};

use fieldset::{below, fields_of, first, lowest, member, minus, with, within, without_lowest};

#[derive(Clone, Copy)]
pub struct Top {
    // the fields whose strengths the table has
    pub known: u64,
    pub strength: u8,
    // how many strengths were worked out
    pub count: u8,
}

// Sees that the table has the strengths of the fields of a set, and those that they depend on. Each that is worked out is counted where it is stored,
// and there are as many as fields that were not known. The depth starts at the number of fields and falls at each call.
fn fill(
    levels: &[u8; 64],
    others: &[u64; 64],
    known: u64,
    table: &mut [u8; 64],
    set: u64,
    depth: usize,
) -> Top
    requires { Fillable levels.now others.now known table.old set depth }
    ensures { Filled levels.now others.now known set result.strength result.known result.count table.old table.new }
{
    let mut k = known;
    let mut top = 0u8;
    let mut count = 0u8;
    for u in fields_of(set) {
        if !member(k, u) {
            let mut s = levels[u];
            let more = others[u];
            if within(more, k) {
                s = s.max(top_of(table, more));
            } else {
                let t = fill(levels, others, k, table, more, depth - 1);
                k = t.known;
                count += t.count;
                s = s.max(t.strength);
            }
            table[u] = s;
            count += 1;
            k = with(k, u);
        }
        top = top.max(table[u]);
    }
    Top {
        known: k,
        strength: top,
        count,
    }
}

// The greatest strength of the fields of a set, 0 for the empty set.
pub fn greatest(
    levels: &[u8; 64],
    others: &[u64; 64],
    n: usize,
    set: u64,
    table: &mut [u8; 64],
) -> Top
    requires { Acyclic others.now n × Within set (below n) × (length table.old ≡ 64) }
    ensures { Topped levels.now others.now n set result.strength result.known result.count table.new }
{
    fill(levels, others, 0, table, set, n)
}

// The strengths of all fields below n, each worked out once: the answer counts them where they are stored. Where a setter has no other output the
// strength is its level, and these come first.
// The contract rules out, for instance, a field counted twice and fields left out (must-fail: alone_worked_out_again, others_left_out).
pub fn strengths(levels: &[u8; 64], others: &[u64; 64], n: usize, table: &mut [u8; 64]) -> u8
    requires { Acyclic others.now n × (length table.old ≡ 64) }
    ensures table_after { table.new ≡ tabulate (strength (at levels.now) (at others.now) n) n ++ drop n table.old }
    ensures value { result ≡ n }
{
    let mut known = 0u64;
    let mut count = 0u8;
    for v in 0..n {
        if others[v] == 0 {
            table[v] = levels[v];
            count += 1;
            known = with(known, v);
        }
    }
    let rest = fill(levels, others, known, table, minus(below(n), known), n);
    count + rest.count
}

// The greatest strength of the fields of a set, 0 for the empty set, where the table has the strengths of all of them.
pub fn top_of(table: &[u8; 64], set: u64) -> u8
    ensures { result ≡ greatest (member set) (at table.now) 64 }
{
    let mut most = 0u8;
    for u in fields_of(set) {
        most = most.max(table[u]);
    }
    most
}

// The fields of a set that have the strength s.
fn tied(table: &[u8; 64], s: u8, set: u64) -> u64
    ensures { result ≡ filter (λ u. eqb (at table.now u) s) set }
{
    let mut ties = 0u64;
    for u in fields_of(set) {
        if table[u] == s {
            ties = with(ties, u);
        }
    }
    ties
}

// The lowest-numbered field of a set at the strength s, 64 where there is none.
pub fn lowest_at(table: &[u8; 64], s: u8, set: u64) -> usize
    ensures { result ≡ lowest_at (at table.now) s set }
{
    lowest(tied(table, s, set))
}

// The reversible path from v, whose strength the table has: its fields go to the start of the buffer. Answers where it ends: the position behind
// its last field.
pub fn path_from(
    levels: &[u8; 64],
    others: &[u64; 64],
    table: &[u8; 64],
    n: usize,
    known: u64,
    v: usize,
    path: &mut [u8; 64],
) -> usize
    requires { Acyclic others.now n × Strengths levels.now others.now n known table.now × (v < n) × (member known v ≡ true) × (length path.old ≡ 64) }
    ensures { PathFound levels.now others.now n v path.old path.new result }
{
    let s = table[v];
    let mut at = v;
    let mut i: usize = 0;
    // labelled, since the scan goes on with the walk, which yields where it ends by its `break`
    let end = 'walk: loop {
        path[i] = at as u8;
        if levels[at] != s {
            i += 1;
            let mut rest = others[at];
            // not by `fields_of`: some field has this strength, so that the scan never comes to the set's end
            loop {
                let next = first(rest);
                if table[next] == s {
                    at = next;
                    continue 'walk;
                }
                rest = without_lowest(rest);
            }
        }
        break 'walk i + 1;
    };
    end
}
