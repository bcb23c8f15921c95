// What lists of tags keep to.
ghost use Rattle.tag_objects.specs.Laws.{ChangingLaw, PuttingLaw};

/// Names rise again where a tag was put. It has its name then, and each other name has what it had. Tags whose names
/// rise are what they give, put one after another.
pub fn putting_law()
    ensures { PuttingLaw }
{}

/// Of tags whose names rise, those that change say, upon the tags that were there, what all of them say; and their
/// names rise.
pub fn changing_law()
    ensures { ChangingLaw }
{}
