// Laws of the definitions that other contracts cite.
ghost use Rattle.git_objects.specs.Laws.{CommitBodyLaw, IdentLaw, TreeBodyLaw};

/// A text is an ident exactly where it is a name that is empty or ends in a space, `<`, an email, `>`, a space, the
/// seconds in 1 to 18 digits, a space, `+` or `-`, and a zone of 1 to 8 digits.
pub fn ident_law()
    ensures { IdentLaw }
{}

/// What is read from a tree's body is what it spells, and each spelling is read. So one body spells one list of
/// entries, and only a body in the canonical form lists any: the modes `100644`, `100755`, `120000`, `160000` and
/// `40000`, valid components, Git's order, and no component twice.
pub fn tree_body_law()
    ensures { TreeBodyLaw }
{}

/// What is read from a commit's body is what it spells, and each spelling is read. So one body spells one commit, and
/// only a body in the canonical form says any: names in lower-case digits, at most 16 parents, two idents, an empty
/// line, and the message.
pub fn commit_body_law()
    ensures { CommitBodyLaw }
{}
