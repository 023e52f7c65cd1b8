// A set of fields and all fields downstream of these: the fields that read one of them, directly or through others.
#![tactic(auto)]

ghost use Rattle.std.specs.Prelude.{◌≡◌};
ghost use Rattle.fieldset.specs.Tables.{at};
ghost use Rattle.downstream.specs.Downstream.{gathered};

use fieldset::{fields_of, union};

// A set and the sets that a table has for its fields. From the table of downstream sets, this is the set and all that is downstream of it.
pub fn gather(set: u64, down: &[u64; 64]) -> u64
    ensures { result ≡ gathered (at down.now) set }
{
    let mut out = set;
    for f in fields_of(set) {
        out = union(out, down[f]);
    }
    out
}
