//! The rules of a question, as valuations take them.

ghost use Rattle.std.specs.Prelude.{◌≡◌, ℕ, List, Option, Some, map, true, IfOk};
ghost use Rattle.gp_semiring.specs.declared.rules.Rule.{Rule};
ghost use Rattle.gp_syntax.specs.Views.{rule_view};
ghost use Rattle.gp_ask.specs.AskingForms as r;
ghost use Rattle.gp_ask.specs.Values as v;

use gp_base::{NoMemory, Sequence};
use gp_grammar::TokenKind as WrittenKind;
use gp_semiring::{Rule, Rules, TokenKind};
use gp_syntax::Rule as WrittenRule;
use std::alloc::Global;

/// The kind of tokens that a rule is on.
fn kind_of(kind: WrittenKind) -> TokenKind
    ensures { result ≡ v.kind_of kind }
{
    match kind {
        WrittenKind::I => TokenKind::I,
        WrittenKind::Q => TokenKind::Q,
        WrittenKind::U => TokenKind::U,
    }
}

fn rule_of(rule: &WrittenRule) -> Rule
    ensures { result ≡ v.rule_of (rule_view rule.now) }
{
    Rule {
        kind: kind_of(rule.kind),
        t: rule.t,
        k: rule.k,
        n: rule.n,
        value: rule.value,
    }
}

/// The rules in order.
fn in_order(alloc: Global, rules: &[WrittenRule]) -> Result<Sequence<Rule>, NoMemory>
    ensures { IfOk result (λ found. found ≡ map v.rule_of (map rule_view rules.now)) }
{
    let mut found = Sequence::new(alloc);
    for rule in rules {
        found.push(rule_of(rule))?;
    }
    Ok(found)
}

/// The rules of a question, and the number of all other tokens.
pub fn rules_of(alloc: Global, rules: &[WrittenRule], other: Option<u64>) -> Result<Rules, NoMemory>
    ensures { IfOk result
        (λ found. (found.rules, found.other) ≡ r.rules_of (map rule_view rules.now) other) }
{
    Ok(Rules {
        rules: in_order(alloc, rules)?,
        other,
    })
}

/// A pattern as a rule by which the tokens that it fits count nothing.
fn pattern_of(rule: &WrittenRule) -> Rule
    ensures { result ≡ r.pattern_of (rule_view rule.now) }
{
    Rule {
        kind: kind_of(rule.kind),
        t: rule.t,
        k: rule.k,
        n: rule.n,
        value: 0,
    }
}

fn patterns_in_order(alloc: Global, rules: &[WrittenRule]) -> Result<Sequence<Rule>, NoMemory>
    ensures { IfOk result (λ found. found ≡ map r.pattern_of (map rule_view rules.now)) }
{
    let mut found = Sequence::new(alloc);
    for rule in rules {
        found.push(pattern_of(rule))?;
    }
    Ok(found)
}

/// The rules by which the tokens that a pattern fits count 0, and all other tokens 1.
pub fn left_out(alloc: Global, rules: &[WrittenRule]) -> Result<Rules, NoMemory>
    ensures { IfOk result (λ found. ◌≡◌ {A = List Rule × Option ℕ} (found.rules, found.other)
        (map r.pattern_of (map rule_view rules.now), Some 1)) }
{
    Ok(Rules {
        rules: patterns_in_order(alloc, rules)?,
        other: Some(1),
    })
}

/// Whether two kinds are the same.
fn is_same_kind(kind: TokenKind, other: TokenKind) -> bool
    ensures { result ≡ true → kind ≡ other }
{
    match (kind, other) {
        (TokenKind::I, TokenKind::I) => true,
        (TokenKind::Q, TokenKind::Q) => true,
        (TokenKind::U, TokenKind::U) => true,
        _ => false,
    }
}

/// Whether two parts of patterns are the same.
fn is_same_part(part: Option<u32>, other: Option<u32>) -> bool
    ensures { result ≡ true → part ≡ other }
{
    match (part, other) {
        (None, None) => true,
        (Some(first), Some(second)) => first == second,
        _ => false,
    }
}

/// Whether two numbers of all other tokens are the same.
fn is_same_number(number: Option<u64>, other: Option<u64>) -> bool
    ensures { result ≡ true → number ≡ other }
{
    match (number, other) {
        (None, None) => true,
        (Some(first), Some(second)) => first == second,
        _ => false,
    }
}

/// Whether two rules are the same.
fn is_same_rule(rule: &Rule, other: &Rule) -> bool
    ensures { result ≡ true → rule.now ≡ other.now }
{
    is_same_kind(rule.kind, other.kind)
        && is_same_part(rule.t, other.t)
        && is_same_part(rule.k, other.k)
        && is_same_part(rule.n, other.n)
        && rule.value == other.value
}

/// Whether two lists have the same rules, in the same order.
fn are_same_rules(rules: &[Rule], others: &[Rule]) -> bool
    ensures { result ≡ true → rules.now ≡ others.now }
{
    if rules.len() != others.len() {
        return false;
    }
    for (i, rule) in rules.iter().enumerate() {
        if !is_same_rule(rule, &others[i]) {
            return false;
        }
    }
    true
}

/// Whether two questions have the same rules, in the same order.
pub fn are_same(rules: &Rules, others: &Rules) -> bool
    ensures { result ≡ true → rules.now ≡ others.now }
{
    is_same_number(rules.other, others.other)
        && are_same_rules(rules.rules.as_slice(), others.rules.as_slice())
}

/// A copy of rules.
pub fn copy_rules(alloc: Global, rules: &Rules) -> Result<Rules, NoMemory>
    ensures { IfOk result (λ copy. copy ≡ rules.now) }
{
    Ok(Rules {
        rules: Sequence::from_slice(alloc, rules.rules.as_slice())?,
        other: rules.other,
    })
}
