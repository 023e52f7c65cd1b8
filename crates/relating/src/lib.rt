// Giving a link a formula.
#![tactic(auto)]

ghost use Rattle.std.specs.Prelude.{◌≡◌, ◌%◌};
ghost use Rattle.panel.specs.Items.{link_at};
ghost use Rattle.panel.specs.Answers.{reply_bytes};
ghost use Rattle.panel.specs.Commands.{check_reply};
ghost use Rattle.sheet.specs.Commands.{sum_past, check_formula, formula_checks};

use formulas::{Formula, Rule, accepts};
use panel::{LAST_LINK, Link, Panel, Refusal, Reply};

// Whether the field of a sum is none of n fields.
fn sum_past(n: usize, formula: Rule) -> bool
    ensures { result ≡ sum_past n formula }
{
    match formula {
        None => false,
        Some(Formula::Ratio(_, _)) => false,
        Some(Formula::Sum(f)) => n <= usize::from(f),
    }
}

// The reply of the checks of a formula, on a panel of n fields; `used` where the number is in use, `covered` the fields that its link covers.
#[tactic(auto, unfolding(panel::specs::Commands::check_reply))]
fn check_formula(n: usize, id: u8, used: bool, covered: u64, formula: Rule) -> Reply
    ensures { reply_bytes result ≡ check_reply (check_formula n id used covered formula) }
{
    if n == 0 {
        return Err(Refusal::NotOpen);
    }
    if LAST_LINK < id {
        return Err(Refusal::BadLink);
    }
    if sum_past(n, formula) {
        return Err(Refusal::NoSuchField);
    }
    if !used {
        return Err(Refusal::NoSuchLink);
    }
    if !accepts(formula, covered) {
        return Err(Refusal::BadFormula);
    }
    Ok(0)
}

// The reply to a formula for the link of a number; `named` is the link that stands under it. Whoever has the formulas stores it where it is accepted.
// The contract rules out, for instance, a number that is not in use and a field past the panel's told as BadFormula (must-fail:
// unused_link_is_bad_formula, field_past_is_bad_formula).
pub fn relate(p: &Panel, named: Link, id: u8, formula: Rule) -> Reply
    requires { named ≡ link_at p.now.links (id % 128) }
    ensures { reply_bytes result ≡ check_reply (formula_checks p.now id formula) }
{
    check_formula(p.size, id, named.used, named.covered, formula)
}
