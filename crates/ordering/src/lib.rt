// The order of evaluation of the fields, over a table of the fields that each field's setter reads.
#![tactic(auto)]

ghost use Rattle.std.specs.Prelude.{◌≡◌, ◌++◌, ◌≤◌, ◌<◌, length, drop};
ghost use Rattle.fieldset.specs.Tables.{at};
ghost use Rattle.fieldset.specs.Fields.{with};
ghost use Rattle.ordering.specs.Order.{order};
ghost use Rattle.ordering.specs.Walks.{Among};
ghost use Rattle.ordering.specs.Steps.{Mapped, MappedBy, Readers, ready_of};

use fieldset::{below, fields_of, first, meets, union, with, without, without_lowest};

// Does `put` to the entries of the fields of a set; it is given the field and what stands there.
pub fn map_entries<F: Fn(usize, u64) -> u64>(set: u64, table: &mut [u64; 64], put: F)
    requires { F.IsAlwaysCallable put }
    ensures { MappedBy (F.post put) set table.old table.new }
{
    for g in fields_of(set) {
        table[g] = put(g, table[g]);
    }
}

// Enters the field f into the set of readers of each field of `reads`.
pub fn enter_readers(f: usize, reads: u64, readers: &mut [u64; 64])
    requires { (f < 64) × (length readers.old ≡ 64) }
    ensures { (length readers.new ≡ 64) × Mapped (λ m. with m f) reads readers.old readers.new }
{
    map_entries(reads, readers, |_, m| with(m, f));
}

// For each field the set of the first n fields that read it.
fn readers_of(reads: &[u64; 64], n: usize) -> [u64; 64]
    requires { n ≤ 64 }
    ensures { Readers (at reads.now) n result }
{
    let mut readers = [0u64; 64];
    for f in 0..n {
        enter_readers(f, reads[f], &mut readers);
    }
    readers
}

// Those fields of the set that read nothing of what is left.
fn ready(set: u64, left: u64, reads: &[u64; 64]) -> u64
    ensures { result ≡ ready_of (at reads.now) set left }
{
    let mut out = 0u64;
    for f in fields_of(set) {
        if !meets(reads[f], left) {
            out = with(out, f);
        }
    }
    out
}

// The plan: its fields go to the start of the buffer, whose rest is as it was; the answer is how many there are.
pub fn order(reads: &[u64; 64], n: usize, out: &mut [u8; 64]) -> usize
    requires { Among reads.now n × (length out.old ≡ 64) }
    ensures { (result ≡ length (order (at reads.now) n)) × (out.new ≡ order (at reads.now) n ++ drop result out.old) }
{
    let readers = readers_of(reads, n);
    let mut left = below(n);
    let mut open = ready(left, left, reads);
    let mut count: usize = 0;
    // not by `fields_of`: the set gains fields on the way
    while open != 0 {
        let f = first(open);
        out[count] = f as u8;
        count += 1;
        left = without(left, f);
        open = union(without_lowest(open), ready(readers[f], left, reads));
    }
    count
}
