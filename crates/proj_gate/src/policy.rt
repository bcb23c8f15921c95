// A policy: its text is read once, and then it decides.
ghost use Rattle.std.specs.Prelude.{◌≡◌, ◌⊎◌, ℕ, Some, Ok, Err, IfOk, MatchResult, OnOk};
ghost use Rattle.std.specs.Option.{option_map};
ghost use Rattle.git_objects.specs.Idents.{cut_at};
ghost use Rattle.git_objects.specs.Lists.{Each};
ghost use Rattle.filter_text.specs.Shapes.{shape};
ghost use Rattle.proj_gate.specs.Lines.{AddsLine, first_line};
ghost use Rattle.proj_gate.specs.Policies.{applies, decide, is_for, is_in, rules, same_act, verdict_of};
ghost use Rattle.proj_gate.specs.Views.{IsSpelled, act_value, pattern_value, rule_value, rule_values, user_value};
ghost use Rattle.proj_gate.specs.Views.{verdict_value};

use crate::rule::{Act, Pattern, Rule, User, Verdict};
use crate::words::{is_idle, rule_from};
use filter_text::{Filter, same};
use git_objects::cut;
use git_objects::limits::POLICY_BYTES;
use path_names::RefName;
use std::alloc::{AllocError, Global};
use std::marker::Model;

/// Why a text is no policy.
#[derive(Clone, Copy, Debug, PartialEq, Eq)]
pub enum PolicyFault {
    /// The first line that is neither idle nor a rule, counted from 1; 0 where the text has more than
    /// `limits::POLICY_BYTES`.
    Bad { line: u32 },
    OutOfMemory,
}

impl From<AllocError> for PolicyFault {
    ghost use Rattle.std.specs.Prelude.{◌≡◌};
    ghost use Rattle.proj_gate.specs.declared.policy.PolicyFault.TheVariants.{OutOfMemory};

    ghost from_gives = { λ _ fault. fault ≡ OutOfMemory };

    fn from(_e: AllocError) -> PolicyFault {
        PolicyFault::OutOfMemory
    }
}

/// The rules of who may see and push what, in the order of their lines.
#[derive(Drop)]
pub struct Policy {
    rules: Vec<Rule>,
}

impl Model for Policy {
    ghost use Rattle.std.specs.Coded.{codes};
    ghost use Rattle.std.specs.Prelude.{List};
    ghost use Rattle.git_objects.specs.Lists.{Each};
    ghost use Rattle.filter_text.specs.contracts.filter.Filter as filters;
    ghost use Rattle.filter_text.specs.Shapes.{shape};
    ghost use Rattle.proj_gate.specs.Views.{IsSpelled};
    ghost use Rattle.proj_gate.specs.declared.rule.Rule.{Rule};

    ghost Value = { List Rule };

    ghost coded = { Prim.hlevel (codes, filters.the_row.coded) };

    ghost view = { λ p. p.rules.items };

    ghost invariant = { λ p. Each (λ r. IsSpelled (shape r.filter)) p.rules.items };
}

impl Policy {
    /// The policy of a text, or its first bad line. Want of memory may come at any text.
    pub fn parse(alloc: Global, text: &[u8]) -> Result<Policy, PolicyFault>
        ensures { MatchResult result
            (λ p. rules text.now ≡ Ok (rule_values p))
            (λ e. (e ≡ PolicyFault.OutOfMemory) ⊎ ((n : ℕ) × (e ≡ PolicyFault.Bad n)
            × (rules text.now ≡ Err n))) }
    {
        if text.len() > POLICY_BYTES {
            return Err(PolicyFault::Bad { line: 0 });
        }
        let mut found = Vec::new(alloc);
        let mut line: u32 = 1;
        let mut rest = Some(text);
        'lines: while let Some(left) = rest {
            let (here, after) = first_line(left);
            if !add_line(alloc, &mut found, line, here)? {
                return Err(PolicyFault::Bad { line });
            }
            line += 1;
            rest = after;
        }
        Ok(Policy { rules: found })
    }

    /// What the policy says of a user's act on a ref with a filter, which a text must spell: the verdict of the first
    /// rule that speaks of it, else a denial by 0. Takes no memory.
    pub fn decide(&self, user: &[u8], act: Act, refname: &RefName, filter: &Filter) -> Verdict
        requires filter { IsSpelled (shape filter.now) }
        ensures { verdict_value result
            ≡ decide (rule_values self.now) user.now (act_value act) refname.now (shape filter.now) }
    {
        for rule in self.rules.iter() {
            if applies(rule, user, act, refname.text(), filter) {
                return verdict_of(rule);
            }
        }
        Verdict::Denied { rule: 0 }
    }
}

// The first line of what is left of a text, and what follows its LF.
fn first_line(text: &[u8]) -> (&[u8], Option<&[u8]>)
    ensures { (result.0.now, option_map (λ r. r.now) result.1) ≡ first_line (cut_at 10 text.now) text.now }
{
    match cut(b'\n', text) {
        None => (text, None),
        Some((line, after)) => (line, Some(after)),
    }
}

// Puts the rule of a line behind those found before, where the line has one. Whether the line is idle or a rule.
fn add_line(
    alloc: Global,
    found: &mut Vec<Rule>,
    line: u32,
    text: &[u8],
) -> Result<bool, AllocError>
    requires spelled { Each (λ r. IsSpelled (shape r.filter)) found.old.items }
    ensures added { IfOk result (λ fits. AddsLine line text.now found.old.items found.new.items fits) }
    ensures spelled { OnOk result (Each (λ r. IsSpelled (shape r.filter)) found.new.items) }
{
    if is_idle(text) {
        return Ok(true);
    }
    match rule_from(alloc, line, text)? {
        None => Ok(false),
        Some(rule) => {
            found.push(rule)?;
            Ok(true)
        }
    }
}

// Whether a rule speaks of a user's act on a ref with a filter. Filters that texts spell have one canonical text
// exactly where they are one filter.
fn applies(rule: &Rule, user: &[u8], act: Act, refname: &[u8], filter: &Filter) -> bool
    requires rule { IsSpelled (shape rule.now.filter) }
    requires filter { IsSpelled (shape filter.now) }
    ensures { result ≡ applies user.now (act_value act) refname.now (shape filter.now) (rule_value rule.now) }
{
    if !is_for(&rule.user, user) {
        return false;
    }
    if !is_act(rule.act, act) {
        return false;
    }
    if !is_in(&rule.refs, refname) {
        return false;
    }
    same(&rule.filter, filter)
}

// Whether a rule speaks of a user.
fn is_for(user: &User, name: &[u8]) -> bool
    ensures { result ≡ is_for (user_value user.now) name.now }
{
    match user {
        User::Anybody => true,
        User::One(one) => one.bytes() == name,
    }
}

// Whether two acts are one.
fn is_act(a: Act, b: Act) -> bool
    ensures { result ≡ same_act (act_value a) (act_value b) }
{
    match a {
        Act::See => b == Act::See,
        Act::Push => b == Act::Push,
    }
}

// Whether a rule speaks of a ref.
fn is_in(refs: &Pattern, refname: &[u8]) -> bool
    ensures { result ≡ is_in (pattern_value refs.now) refname.now }
{
    match refs {
        Pattern::One(one) => one.bytes() == refname,
        Pattern::Below(front) => refname.starts_with(front.bytes()),
    }
}

// What a rule that decides says.
fn verdict_of(rule: &Rule) -> Verdict
    ensures { verdict_value result ≡ verdict_of (Some (rule_value rule.now)) }
{
    if rule.allows {
        Verdict::Allowed { rule: rule.line }
    } else {
        Verdict::Denied { rule: rule.line }
    }
}
