ghost use Rattle.std.specs.Prelude.{◌≡◌, ◌&&◌};
ghost use Rattle.x12.specs.Lists.{filled};
ghost use Rattle.elements.specs.Limits.{lacks_by, exceeds_by, judges_by, wrong_length_by, wrong_type_by};

use guide::rules::{Need, Rule};
use value::types::{has_length, has_type};

// Whether there is a byte.
pub fn is_filled(v: &[u8]) -> bool
    ensures { result ≡ filled v.now }
{
    !v.is_empty()
}

// Whether a must element is empty.
pub(crate) fn is_lacking(rule: Option<Rule>, v: &[u8]) -> bool
    ensures { result ≡ lacks_by rule v.now }
{
    rule.is_some_and(|rule| rule.need == Need::Must && !is_filled(v))
}

// Whether an unused element is filled; one without a rule is unused.
pub(crate) fn is_excess(rule: Option<Rule>, v: &[u8]) -> bool
    ensures { result ≡ exceeds_by rule v.now }
{
    rule.is_none_or(|rule| rule.need == Need::Unused) && is_filled(v)
}

// Whether the rule judges the element: it is used and filled.
pub(crate) fn is_judged(rule: Rule, v: &[u8]) -> bool
    ensures { result ≡ judges_by rule v.now }
{
    rule.need != Need::Unused && is_filled(v)
}

// Whether the element has a length that its rule does not allow.
pub(crate) fn has_wrong_length(rule: Option<Rule>, v: &[u8]) -> bool
    ensures { result ≡ wrong_length_by rule v.now }
{
    rule.is_some_and(|rule| {
        is_judged(rule, v) && !has_length(rule.form, rule.least, rule.greatest, v)
    })
}

// Whether the element is not of its type.
pub(crate) fn has_wrong_type(rule: Option<Rule>, v: &[u8]) -> bool
    ensures { result ≡ wrong_type_by rule v.now }
{
    rule.is_some_and(|rule| is_judged(rule, v) && !has_type(rule.form, v))
}
