//! Links from each rule to the next of the same symbol.

ghost use Rattle.std.specs.Prelude.{◌≡◌, ◌^◌, ◌<◌, ◌≤◌, None, IfSome, length, replicate};
ghost use Rattle.term_model.specs.Tree.{root};
ghost use Rattle.rule_match.specs.Groups.{HaveSymbols, HeadsAreBelow, IsLinked, symbol_of};

use crate::heads::root_symbol;
use rewrite_model::Rule;

/// One more than the greatest number of a symbol at the root of a left side.
pub(crate) fn symbol_count(rules: &[Rule]) -> usize
    requires { HaveSymbols rules.now }
    ensures { HeadsAreBelow result rules.now }
{
    let mut count = 0;
    for rule in rules {
        count = count_with(rule, count);
    }
    count
}

/// A count that is past the symbol at the root of a rule's left side, too.
fn count_with(rule: &Rule, count: usize) -> usize
    ensures kept { count ≤ result }
    ensures past { IfSome (symbol_of (root rule.now.left)) (λ symbol. symbol.0 < result) }
{
    match root_symbol(rule.left()) {
        Some(symbol) => count.max(symbol.0 as usize + 1),
        None => count,
    }
}

/// Links the rules of each symbol in written order, beginning with no links.
pub(crate) fn link(rules: &[Rule], firsts: &mut [Option<u32>], nexts: &mut [Option<u32>])
    requires count { length rules.now < 2 ^ 32 }
    requires size { length nexts.old ≡ length rules.now }
    requires heads { HeadsAreBelow (length firsts.old) rules.now }
    requires none { firsts.old ≡ replicate (length firsts.old) None }
    ensures { IsLinked rules.now 0 firsts.new nexts.new }
{
    let mut at = rules.len();
    'rules: while at > 0 {
        at -= 1;
        if let Some(symbol) = root_symbol(rules[at].left()) {
            let head = symbol.0 as usize;
            nexts[at] = firsts[head];
            firsts[head] = Some(at as u32);
        }
    }
}
