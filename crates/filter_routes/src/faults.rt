// The first piece that may not stand inside of its exclude.
ghost use Rattle.std.specs.Prelude.{◌≡◌, ◌+◌, ◌<◌, ◌^◌, cond, false, Ok, Err};
ghost use Rattle.filter_text.specs.Filters.{pieces, pieces_in};
ghost use Rattle.filter_text.specs.Shapes.{shape, shapes};
ghost use Rattle.filter_routes.specs.Faults.{nodes, nodes_all, walk, FirstNotKeeping};

use filter_text::Filter;

// The number behind a piece, or that of a piece that may not stand where it does.
fn past(may_stand: bool, number: usize) -> Result<usize, usize>
    requires { number + 1 < 2 ^ 64 }
    ensures { result ≡ cond may_stand (Ok (number + 1)) (Err number) }
{
    if may_stand {
        Ok(number + 1)
    } else {
        Err(number)
    }
}

// The number behind the filter's pieces, or that of the first that may not stand inside of its exclude.
#[cycle(walking)]
fn not_keeping(filter: &Filter, inside: bool, number: usize) -> Result<usize, usize>
    requires { number + pieces (shape filter.now) < 2 ^ 64 }
    ensures { result ≡ walk number (nodes inside (shape filter.now)) }
{
    match filter {
        Filter::Nop => Ok(number + 1),
        Filter::Sub(_) => past(!inside, number),
        Filter::Prefix(_) => past(!inside, number),
        Filter::Dir(_) => Ok(number + 1),
        Filter::File(_) => Ok(number + 1),
        Filter::Exclude(inner) => {
            if inside {
                return Err(number);
            }
            not_keeping(inner, true, number + 1)
        }
        Filter::Join(members) => not_keeping_in(members.as_slice(), inside, number + 1),
        Filter::Chain(members) => not_keeping_in(members.as_slice(), inside, number),
        Filter::Workspace(_) => past(!inside, number),
    }
}

#[cycle(walking)]
fn not_keeping_in(members: &[Filter], inside: bool, number: usize) -> Result<usize, usize>
    requires { number + pieces_in (shapes members.now) < 2 ^ 64 }
    ensures { result ≡ walk number (nodes_all inside (shapes members.now)) }
{
    let mut number = number;
    for m in members {
        match not_keeping(m, inside, number) {
            Err(found) => return Err(found),
            Ok(next) => number = next,
        }
    }
    Ok(number)
}

/// The first piece that may not stand inside of an exclude: pieces are all parts of a filter but the chains, each
/// before its parts, numbered from 0.
pub fn first_not_keeping(filter: &Filter) -> Option<u32>
    requires { pieces (shape filter.now) < 2 ^ 32 }
    ensures { FirstNotKeeping (shape filter.now) result }
{
    match not_keeping(filter, false, 0) {
        Ok(_) => None,
        Err(number) => Some(number as u32),
    }
}
