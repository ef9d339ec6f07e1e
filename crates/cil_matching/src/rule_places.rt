//! The places of one policy's rules in another one.

ghost use Rattle.std.specs.Prelude.{◌≡◌, ◌↔◌, ◌<◌, ℕ, length, slice_get, Some, IfOk, IfErr, IfSome};
ghost use Rattle.cil_matching.specs.Common.{IsSameRule, meaning_in, AreNumbers, ArePlaces, AreSameAt, AreBefore, IsFoundAt, IsMissedAt};
ghost use Rattle.cil_matching.specs.Compared.{AreCompared};
ghost use Rattle.cil_specs.specs.Report.{name_cmp};
ghost use Rattle.cil_specs.specs.Rule.{Rule};
ghost use Rattle.cil_specs.specs.Violations.{rule_cmp};

use crate::compared::{Compared, order_of_modules, then_offsets};
use crate::name_numbers::name_numbers;
use crate::numbers::Numbers;
use crate::paired_rules::pairs_until;
use crate::places::put;
use crate::same_content::is_same_content;
use cil_bind::Lead;
use cil_resolve::Resolved;
use std::alloc::{AllocError, Allocator};
use std::cmp::Ordering;

/// How the new policy's rule at a place stands to the old one's at a place, by their modules and offsets.
fn order_of<A: Allocator>(
    known: &mut Option<Compared>,
    old: &Resolved<A>,
    i: usize,
    new: &Resolved<A>,
    j: usize,
) -> Ordering
    requires i { i < length (meaning_in old.now).rules }
    requires j { j < length (meaning_in new.now).rules }
    requires known { IfSome known.old (AreCompared old.now new.now) }
    ensures known { IfSome known.new (AreCompared old.now new.now) }
    ensures order { (r s : Rule) → slice_get (meaning_in old.now).rules i ≡ Some r
        → slice_get (meaning_in new.now).rules j ≡ Some s → result ≡ rule_cmp s r }
{
    let rule = &old.rules()[i];
    let other = &new.rules()[j];
    let modules = order_of_modules(known, old, rule.module, new, other.module);
    then_offsets(modules, other.at.offset, rule.at.offset)
}

/// Where the new policy has a rule at the position of the old one's rule at a place, or how many of its rules stand before that, as a
/// binary search tells it. It looks from a place on.
fn find_rule<A: Allocator>(
    known: &mut Option<Compared>,
    old: &Resolved<A>,
    i: usize,
    new: &Resolved<A>,
    from: usize,
) -> Result<usize, usize>
    requires within { i < length (meaning_in old.now).rules }
    requires before { AreBefore rule_cmp (meaning_in old.now).rules (meaning_in new.now).rules i from }
    requires known { IfSome known.old (AreCompared old.now new.now) }
    ensures known { IfSome known.new (AreCompared old.now new.now) }
    ensures ok { IfOk result (λ j. IsFoundAt rule_cmp (meaning_in old.now).rules (meaning_in new.now).rules i j) }
    ensures err { IfErr result (λ j. IsMissedAt rule_cmp (meaning_in old.now).rules (meaning_in new.now).rules i j) }
{
    for j in from..new.rules_len() {
        match order_of(known, old, i, new, j) {
            Ordering::Less => {}
            Ordering::Equal => return Ok(j),
            Ordering::Greater => return Err(j),
        }
    }
    Err(new.rules_len())
}

/// The place in the new policy of the same rule, where this one stands at its position. Few are asked for, since those behind it are gone
/// along in pairs, so it isn't inlined.
#[inline(never)]
fn same<A: Allocator>(
    numbers: &Numbers<'_>,
    old: &Resolved<A>,
    i: usize,
    new: &Resolved<A>,
    j: usize,
) -> Option<usize>
    requires within { i < length (meaning_in old.now).rules }
    requires found { IsFoundAt rule_cmp (meaning_in old.now).rules (meaning_in new.now).rules i j }
    requires numbers { AreNumbers old.now.names.items new.now.names.items numbers.now }
    ensures { (k : ℕ) → (result ≡ Some k) ↔ AreSameAt IsSameRule (meaning_in old.now).rules (meaning_in new.now).rules i k }
{
    is_same_content(numbers, &old.rules()[i], &new.rules()[j]).then_some(j)
}

/// For each rule of the old policy the place of the same one in the new one, if that has it. The rules of both stand in order, so it goes
/// along them once: where one is found, those behind it are gone along in pairs as far as they are the same. It isn't inlined, so that its
/// loop has the registers for itself.
#[inline(never)]
pub fn rule_places<A: Allocator + Copy>(
    alloc: A,
    old: &Resolved<A>,
    new: &Resolved<A>,
) -> Result<Vec<Lead, A>, AllocError>
    ensures { IfOk result (λ places. ArePlaces IsSameRule (meaning_in old.now).rules (meaning_in new.now).rules (length (meaning_in old.now).rules) places.items) }
{
    let list = name_numbers(alloc, old, new)?;
    let numbers = Numbers::of(&list);
    let mut places = Vec::with_capacity(alloc, old.rules_len())?;
    let mut known = None;
    let mut from = 0;
    let mut until = 0;
    for i in 0..old.rules_len() {
        if i < until {
            put(&mut places, Some(from))?;
            from += 1;
        } else {
            match find_rule(&mut known, old, i, new, from) {
                Ok(j) => {
                    put(&mut places, same(&numbers, old, i, new, j))?;
                    until = pairs_until(&numbers, old, i, new, j);
                    from = j + 1;
                }
                Err(j) => {
                    put(&mut places, None)?;
                    from = j;
                }
            }
        }
    }
    Ok(places)
}
