//! Rules that two policies have one behind the other.

ghost use Rattle.std.specs.Prelude.{◌≡◌, ◌<◌, ◌+◌, true, length, IsTrue};
ghost use Rattle.cil_resolve.specs.Numbers.{keeps_no_list};
ghost use Rattle.cil_specs.specs.Violations.{rule_cmp};
ghost use Rattle.cil_matching.specs.Common.{IsSameRule, meaning_in, AreNumbers, IsFoundAt};
ghost use Rattle.cil_matching.specs.Paired.{ArePaired, AreSameUntil};

use crate::compared::Modules;
use crate::numbers::Numbers;
use crate::same_content::is_same_content;
use cil_resolve::{NumberedRule, Resolved};
use std::alloc::Allocator;

/// Whether two rules stand in two modules, at the same offset, and say the same.
#[inline(always)]
fn is_pair<A: Allocator>(
    numbers: &Numbers<'_>,
    modules: Modules,
    rule: &NumberedRule<A>,
    other: &NumberedRule<A>,
) -> bool
    requires rule { IsTrue (keeps_no_list rule.now) }
    requires other { IsTrue (keeps_no_list other.now) }
    ensures { result ≡ true → ArePaired numbers.now modules rule.now other.now }
{
    rule.module == modules.old
        && other.module == modules.new
        && rule.at.offset == other.at.offset
        && is_same_content(numbers, rule, other)
}

/// The place in the old policy up to which its rules behind one are the same as those of the new policy behind the one that stands there.
/// They are looked at as far as they stand in the same module. It isn't inlined, so that its loop has the registers for itself.
#[inline(never)]
pub fn pairs_until<A: Allocator>(
    numbers: &Numbers<'_>,
    old: &Resolved<A>,
    i: usize,
    new: &Resolved<A>,
    j: usize,
) -> usize
    requires within { i < length (meaning_in old.now).rules }
    requires found { IsFoundAt rule_cmp (meaning_in old.now).rules (meaning_in new.now).rules i j }
    requires numbers { AreNumbers old.now.names.items new.now.names.items numbers.now }
    ensures { AreSameUntil IsSameRule (meaning_in old.now).rules (meaning_in new.now).rules
        (i + 1) (j + 1) result }
{
    let rules = old.rules();
    let others = new.rules();
    let modules = Modules {
        old: rules[i].module,
        new: others[j].module,
    };
    let end = rules.len();
    let mut to = j + 1;
    for k in i + 1..end {
        if to >= others.len() {
            return k;
        }
        if !is_pair(numbers, modules, &rules[k], &others[to]) {
            return k;
        }
        to += 1;
    }
    end
}
