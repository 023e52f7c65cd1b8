// The counts of the scans that a run over a text makes, for tests in C or Rust to call: a library of its own, so that the panel's does not export them. A
// text and a buffer are a pointer and a length each.
#![tactic(auto)]

ghost use Rattle.std.specs.Prelude.{◌≡◌, length};
ghost use Rattle.std.proofs.lemmas.List.Edits.{sets};
ghost use Rattle.counting.specs.Counts.{scans_of};

use answering::lines_from;
use frames::is_too_long;
use replies::LONGEST;
use sheet::unopened;
use tally::Tally;
use writing::store;

// For each scan for blocked links and stays that a run over a text makes, from an unopened panel on, the number of strengths that were worked out for
// it: as many as fit the buffer, in order. The answer is how many scans there are. A text that is too long has none.
// The contract rules out, for instance, a count stored over the one before and the scan of only the last of several lines (must-fail:
// count_overwritten, several_lines_at_a_time).
#[unsafe(no_mangle)]
pub extern "C" fn panel_scans(text: &[u8], counts: &mut [u8]) -> usize
    ensures value { result ≡ length (scans_of text.now) }
    ensures counts_after { counts.new ≡ sets counts.old 0 (scans_of text.now) }
{
    if is_too_long(text) {
        return 0;
    }
    let mut s = unopened();
    let mut t = Tally::default();
    // room for one reply, so that one line is answered at a time
    let mut out = [0; LONGEST];
    let mut at = 0;
    let mut made = 0;
    while at < text.len() {
        let r = lines_from(text, at, s, t, &mut out);
        at = r.next;
        s = r.sheet;
        t = r.tally;
        if r.worked != 0 {
            store(counts, made, r.worked);
            made += 1;
        }
    }
    made
}
