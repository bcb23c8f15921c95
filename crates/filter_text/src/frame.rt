// Brackets that are open while a text is read.
use crate::Filter;
use path_names::Path;

#[derive(Clone, Copy, Debug, PartialEq, Eq)]
pub enum Bracket {
    Exclude,
    Join,
}

// An open bracket.
#[derive(Drop)]
pub struct Frame {
    pub bracket: Bracket,
    // The pieces before it in its chain.
    pub before: Vec<Filter>,
    // The members of its list that are whole.
    pub members: Vec<Filter>,
    // The target of the member that is being read.
    pub target: Option<Path>,
}

// Where the reading stands.
#[derive(Clone, Copy, Debug, PartialEq, Eq)]
pub enum At {
    // A piece must come.
    Piece,
    // In the list of the innermost bracket, where a member may come.
    Inside,
    // The outermost chain has ended.
    Ended,
    // The text is no filter.
    Refused,
}
