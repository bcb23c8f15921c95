// What projections keep to, and what a user can't tell.
ghost use Rattle.state_items.specs.KeptLaws.{StayLaw};
ghost use Rattle.proj_commands.specs.Alike.{AlikeLaw};
ghost use Rattle.proj_commands.specs.Filters.{project_by};
ghost use Rattle.proj_commands.specs.Plans.{RecallLaw};

use projection_laws::projection_law;

/// A commit's projection stays when commits are added.
pub fn stay_law()
    ensures { StayLaw project_by }
{}

/// On items that hold what they should, a projection that takes what is kept for projections is the one from scratch.
pub fn recall_law()
    ensures { RecallLaw }
{
    projection_law();
}

/// Two states with one policy, of whose heads a filter shows the same: a user is told the same of a step. A push may be
/// refused by what isn't shown.
pub fn alike_law()
    ensures { AlikeLaw }
{}
