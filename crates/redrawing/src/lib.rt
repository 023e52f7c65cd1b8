// The redraw count of a line.
#![tactic(auto)]

ghost use Rattle.std.specs.Prelude.{◌≡◌};
ghost use Rattle.fieldset.specs.Tables.{at};
ghost use Rattle.fieldset.specs.Fields.{union};
ghost use Rattle.downstream.specs.Downstream.{gathered};
ghost use Rattle.panel.specs.Outcomes.{counted};

use downstream::gather;
use fieldset::{size, union};
use panel::Reply;

// A reply with the count of the fields that are redrawn, where there are such: those of `changed`, whose setters changed, all that a table has downstream
// of them, and those of `revalued`, whose values changed.
// The contract rules out, for instance, values taken for setters, with what is downstream of them, and a count that leaves field 0 alone out (must-fail:
// values_taken_for_setters, field_0_alone_not_counted).
pub fn count_reply(reply: Reply, changed: u64, revalued: u64, down: &[u64; 64]) -> Reply
    ensures { result ≡ counted reply (union (gathered (at down.now) changed) revalued) }
{
    let set = union(gather(changed, down), revalued);
    if set == 0 {
        return reply;
    }
    match reply {
        Err(_) => reply,
        Ok(_) => Ok(size(set) as u8),
    }
}
