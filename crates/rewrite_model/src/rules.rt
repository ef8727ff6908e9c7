//! Rules whose sides are terms in postorder.

ghost use Rattle.std.specs.Prelude.{◌≡◌};

use std::marker::Model;
use term_model::Flat;

/// A condition of a rule: two patterns whose values are to be equal, or to differ.
#[derive(Drop)]
pub struct Condition {
    first: Flat,
    second: Flat,
    equal: bool,
}

impl Model for Condition {
    ghost use Rattle.rewrite_model.specs.Rule.{Condition as Conditional};
    ghost use Rattle.rewrite_model.specs.Code.{condition_code};

    ghost Value = { Conditional };

    ghost coded = { condition_code };

    ghost view = { λ c. record { first = c.first; second = c.second; equal = c.equal } };
}

impl Condition {
    pub fn new(first: Flat, second: Flat, equal: bool) -> Self
        ensures { result ≡ record { first = first; second = second; equal = equal } }
    {
        Condition {
            first,
            second,
            equal,
        }
    }

    pub fn first(&self) -> &Flat
        ensures { result.now ≡ self.now.first }
    {
        &self.first
    }

    pub fn second(&self) -> &Flat
        ensures { result.now ≡ self.now.second }
    {
        &self.second
    }

    /// Whether the values are to be equal; else they are to differ.
    pub fn equal(&self) -> bool
        ensures { result ≡ self.now.equal }
    {
        self.equal
    }
}

/// A rule: the left side, the right side, the conditions in order, and the count of variables,
/// which are numbered from 0 in order of first occurrence in the left side.
#[derive(Drop)]
pub struct Rule {
    left: Flat,
    right: Flat,
    conditions: Vec<Condition>,
    vars: u32,
}

impl Model for Rule {
    ghost use Rattle.rewrite_model.specs.Rule.{Rule as Ruled};
    ghost use Rattle.rewrite_model.specs.Code.{rule_code};

    ghost Value = { Ruled };

    ghost coded = { rule_code };

    ghost view = { λ r. record { left = r.left; right = r.right; conditions = r.conditions.items; vars = r.vars } };
}

impl Rule {
    pub fn new(left: Flat, right: Flat, conditions: Vec<Condition>, vars: u32) -> Self
        ensures { result
            ≡ record { left = left; right = right; conditions = conditions.items; vars = vars } }
    {
        Rule {
            left,
            right,
            conditions,
            vars,
        }
    }

    pub fn left(&self) -> &Flat
        ensures { result.now ≡ self.now.left }
    {
        &self.left
    }

    pub fn right(&self) -> &Flat
        ensures { result.now ≡ self.now.right }
    {
        &self.right
    }

    pub fn conditions(&self) -> &[Condition]
        ensures { result.now ≡ self.now.conditions }
    {
        &self.conditions
    }

    pub fn vars(&self) -> u32
        ensures { result ≡ self.now.vars }
    {
        self.vars
    }
}
