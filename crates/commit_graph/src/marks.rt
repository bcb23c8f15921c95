// Marks at places.
ghost use Rattle.std.specs.Prelude.{◌+◌, ◌<◌, length, All};
ghost use Rattle.commit_graph.specs.Marks.{AddsMarks};

// Marks those of the places that stand at `low` or behind it. The first mark is that of `low`.
pub(crate) fn mark_all(marks: &mut [bool], low: u32, places: &[u32])
    requires { All (λ p. p < low + length marks.old) places.now }
    ensures { AddsMarks low marks.old marks.new places.now }
{
    for place in places {
        if *place >= low {
            marks[(*place - low) as usize] = true;
        }
    }
}
