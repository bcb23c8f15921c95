// What a rule says.
use filter_text::Filter;
use git_objects::Bytes;

/// What a command does: `project` and `export` see, and `push` pushes.
#[derive(Clone, Copy, Debug, PartialEq, Eq)]
pub enum Act {
    See,
    Push,
}

/// What a policy says of an act, with the number of the line whose rule decides, counted from 1; 0 where none does.
#[derive(Clone, Copy, Debug, PartialEq, Eq)]
pub enum Verdict {
    Allowed { rule: u32 },
    Denied { rule: u32 },
}

/// Of whom a rule speaks.
#[derive(Debug, Drop)]
pub(crate) enum User {
    Anybody,
    One(Bytes),
}

/// Of which refs a rule speaks: of one, or of each whose name begins with these bytes.
#[derive(Debug, Drop)]
pub(crate) enum Pattern {
    One(Bytes),
    Below(Bytes),
}

/// A rule of a policy.
#[derive(Debug, Drop)]
pub(crate) struct Rule {
    pub(crate) line: u32,
    pub(crate) allows: bool,
    pub(crate) user: User,
    pub(crate) act: Act,
    pub(crate) refs: Pattern,
    pub(crate) filter: Filter,
}
