// The rule by which merges are dropped.
ghost use Rattle.std.specs.Prelude.{◌≡◌};
ghost use Rattle.commit_map.specs.Rules.{rule_number, rule_of};

/// Which merges a projection drops: none of several projected parents by the first rule; by the second also a merge
/// to a parent that already has its tree and descends from all other projected parents.
#[derive(Clone, Copy, PartialEq, Eq)]
pub enum Rule {
    One,
    Two,
}

impl Rule {
    /// 1 or 2.
    pub fn number(self) -> u8
        ensures { result ≡ rule_number self }
    {
        match self {
            Rule::One => 1,
            Rule::Two => 2,
        }
    }

    /// The rule of a number, if it is one's.
    pub fn of(number: u8) -> Option<Rule>
        ensures { result ≡ rule_of number }
    {
        match number {
            1 => Some(Rule::One),
            2 => Some(Rule::Two),
            _ => None,
        }
    }
}
