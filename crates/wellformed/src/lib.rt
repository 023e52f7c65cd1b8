// Whether a sheet is well formed: such a sheet has a text that is no BadImage.
#![tactic(auto)]

ghost use Rattle.std.specs.Prelude.{◌≡◌, cond, ◌≤◌, ◌<◌, ltb, length};
ghost use Rattle.sheet.specs.Sheets.{Full};
ghost use Rattle.images.specs.Forms.{every, is_size, is_place, is_standing, used_test, unused_test, is_link, is_rule, is_formed};
ghost use Rattle.wellformed.specs.Tests.{setter_test, value_test, field_test, link_test};

use fieldset::{below, member, size, within};
use formulas::{Rule, accepts};
use panel::{Link, Panel, Standing};
use saving::field_at;
use sheet::Sheet;
use values::bits_of;

// Whether the stay of a field has a place of its own.
#[tactic(auto, unfolding(images::specs::Forms::is_place))]
fn is_place(place: &[u8; 64], n: usize, f: usize) -> bool
    requires { (n ≤ 64) × (f < 64) }
    ensures { result ≡ is_place place.now n f }
{
    let p = usize::from(place[f]);
    if f < n {
        p < n && usize::from(field_at(place, n, p)) == f
    } else {
        p == f
    }
}

// Whether a link that holds a field is the field's setter, and the field one of its outputs.
fn is_standing(setter: &[u8; 64], i: usize, outputs: u64, s: Standing) -> bool
    ensures { result ≡ is_standing setter.now i outputs s }
{
    match s {
        Standing::Waiting => true,
        Standing::Holding(f) => {
            let f = usize::from(f);
            f < 64 && member(outputs, f) && usize::from(setter[f]) == i
        }
    }
}

// Whether an add would take a link in use.
fn is_used(n: usize, l: Link) -> bool
    requires { n ≤ 64 }
    ensures { result ≡ used_test n l }
{
    l.level <= 15
        && size(l.covered) <= 8
        && l.outputs > 0
        && within(l.outputs, l.covered)
        && within(l.covered, below(n))
}

// Whether a link is the default one.
fn is_unused(l: Link) -> bool
    ensures { result ≡ unused_test l }
{
    l.covered == 0 && l.outputs == 0 && l.level == 0 && matches!(l.standing, Standing::Waiting)
}

// Whether the link of a number is well formed.
#[tactic(auto, unfolding(images::specs::Forms::is_link))]
fn is_link(n: usize, setter: &[u8; 64], i: usize, l: Link) -> bool
    requires { n ≤ 64 }
    ensures { result ≡ is_link n setter.now i l }
{
    is_standing(setter, i, l.outputs, l.standing)
        && if l.used { is_used(n, l) } else { is_unused(l) }
}

// A link's number, and 0 for a number that is none.
fn number_or_0(i: usize) -> usize
    ensures { (result ≡ cond (ltb i 128) i 0) × (result < 128) }
{
    if i < 128 { i } else { 0 }
}

// Whether the setter i of a field is its stay, or the link l, which is in use and holds the field.
fn is_setter(i: usize, l: Link, f: usize) -> bool
    ensures { result ≡ setter_test i l f }
{
    i == 128
        || i < 128 && l.used && matches!(l.standing, Standing::Holding(g) if usize::from(g) == f)
}

// Whether a link has no formula, or is in use and can be given it.
#[tactic(auto, unfolding(images::specs::Forms::is_rule))]
fn is_rule(l: Link, formula: Rule) -> bool
    ensures { result ≡ is_rule l formula }
{
    formula.is_none() || l.used && accepts(formula, l.covered)
}

// Whether the value of a field is zero past the fields. All values are within the limits.
fn is_value(n: usize, f: usize, x: i32) -> bool
    ensures { result ≡ value_test n f x }
{
    f < n || bits_of(x) == 0
}

// Whether all fields have places, setters and values of this kind. It also says how long the panel's tables are, which a caller that lends a part of a
// sheet is not told.
fn are_fields(p: &Panel, values: &[i32; 64]) -> bool
    requires { p.now.size ≤ 64 }
    ensures tested { result ≡ every (field_test p.now values.now) 64 }
    ensures whole { (length p.now.place ≡ 64) × (length p.now.setter ≡ 64) }
{
    for f in 0..64 {
        let i = usize::from(p.setter[f]);
        let l = p.links[number_or_0(i)];
        if !is_place(&p.place, p.size, f)
            || !is_setter(i, l, f)
            || !is_value(p.size, f, values[f])
        {
            return false;
        }
    }
    true
}

// Whether all links and formulas are of this kind.
fn are_links(p: &Panel, formulas: &[Rule; 128]) -> bool
    requires { p.now.size ≤ 64 }
    ensures { result ≡ every (link_test p.now formulas.now) 128 }
{
    for i in 0..128 {
        let l = p.links[i];
        if !is_link(p.size, &p.setter, i, l) || !is_rule(l, formulas[i]) {
            return false;
        }
    }
    true
}

// Whether a panel may be opened with this many fields.
#[tactic(auto, unfolding(images::specs::Forms::is_size))]
fn is_size(n: usize) -> bool
    ensures { result ≡ is_size n }
{
    (1..=64).contains(&n)
}

// Whether a sheet is well formed.
// The contract rules out, for instance, 65 fields, a link of level 16, and a link that holds a field that is none of its outputs (must-fail:
// size_65_taken, level_16_taken, held_field_no_output).
#[tactic(auto, unfolding(images::specs::Forms::is_size))]
pub fn is_formed(s: &Sheet) -> bool
    requires { Full s.now }
    ensures { result ≡ is_formed s.now }
{
    let p = &s.panel;
    is_size(p.size) && are_fields(p, &s.values) && are_links(p, &s.formulas)
}
