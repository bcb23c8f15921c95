// What certificates keep to.
ghost use Rattle.proj_audit.specs.Laws.{AuditLaw, GrownLaw, MissingLaw, NeededLaw, ProofLaw, StoreLaw};
ghost use Rattle.proj_audit.specs.Spelling.{SyntaxLaw};

/// A certificate is read as what it spells, and another text is refused at the place where it is broken.
pub fn syntax_law()
    ensures { SyntaxLaw }
{}

/// What is accepted for a commit's name is what the filter shows of each commit of this name, unless an object of the
/// certificate and another one of that commit have one name.
pub fn proof_law()
    ensures { ProofLaw }
{}

/// What is written is what is needed: the commit, what tells the workspace's items, and the walk of the path, each
/// once.
pub fn needed_law()
    ensures { NeededLaw }
{}

/// Where no other object has the name of a needed one, a refusal names the first needed object that isn't there.
pub fn missing_law()
    ensures { MissingLaw }
{}

/// What is written of objects that tell the leaf is accepted with this leaf.
pub fn audit_law()
    ensures { AuditLaw }
{}

/// What is written of a commit in a store is accepted with the leaf that the filter shows of it.
pub fn store_law()
    ensures { StoreLaw }
{}

/// Of a commit of a store the same is written by any objects of which each of the store is found under its name.
pub fn grown_law()
    ensures { GrownLaw }
{}
