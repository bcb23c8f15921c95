// Filters compared and copied.
ghost use Rattle.std.specs.Prelude.{◌≡◌, ◌↔◌, true, IfOk, IsTrue};
ghost use Rattle.git_objects.specs.Paths.{is_path, same_path};
ghost use Rattle.filter_text.specs.Filters.{join, chain, has_paths, have_paths, same_filter, same_filters};
ghost use Rattle.filter_text.specs.Shapes.{shape, shapes};

use crate::Filter;
use path_names::Path;
use std::alloc::{AllocError, Global};

// A copy of a path. That it is a path is told of the one that is copied.
fn copy_path(alloc: Global, path: &Path) -> Result<Path, AllocError>
    ensures copy { IfOk result (λ p. p ≡ path.now) }
    ensures path { is_path path.now ≡ true }
{
    Path::of_parts(alloc, path.components(), &[])
}

/// A copy of the filter, which is made of paths.
#[cycle(copying)]
pub fn copy(alloc: Global, filter: &Filter) -> Result<Filter, AllocError>
    ensures copy { IfOk result (λ f. shape f ≡ shape filter.now) }
    ensures paths { IfOk result (λ f. has_paths (shape f) ≡ true) }
{
    match filter {
        Filter::Nop => Ok(Filter::Nop),
        Filter::Sub(path) => Ok(Filter::Sub(copy_path(alloc, path)?)),
        Filter::Prefix(path) => Ok(Filter::Prefix(copy_path(alloc, path)?)),
        Filter::Dir(path) => Ok(Filter::Dir(copy_path(alloc, path)?)),
        Filter::File(path) => Ok(Filter::File(copy_path(alloc, path)?)),
        Filter::Exclude(inner) => {
            let inner = copy(alloc, inner)?;
            Ok(Filter::Exclude(Box::new(alloc, inner)?))
        }
        Filter::Join(members) => Ok(Filter::Join(copy_all(alloc, members.as_slice())?)),
        Filter::Chain(members) => Ok(Filter::Chain(copy_all(alloc, members.as_slice())?)),
        Filter::Workspace(path) => Ok(Filter::Workspace(copy_path(alloc, path)?)),
    }
}

#[cycle(copying)]
fn copy_all(alloc: Global, members: &[Filter]) -> Result<Vec<Filter>, AllocError>
    ensures copies { IfOk result (λ v. shapes v.items ≡ shapes members.now) }
    ensures paths { IfOk result (λ v. have_paths (shapes v.items) ≡ true) }
{
    let mut copies = Vec::with_capacity(alloc, members.len())?;
    for m in members {
        copies.push(copy(alloc, m)?)?;
    }
    Ok(copies)
}

// Whether two paths have the same components.
fn same_path(p: &Path, q: &Path) -> bool
    ensures { result ≡ same_path p.now q.now }
{
    let p = p.components();
    let q = q.components();
    if p.len() != q.len() {
        return false;
    }
    for i in 0..p.len() {
        if p[i].bytes() != q[i].bytes() {
            return false;
        }
    }
    true
}

#[cycle(comparing)]
fn is_same(a: &Filter, b: &Filter) -> bool
    ensures { result ≡ same_filter (shape a.now) (shape b.now) }
{
    match a {
        Filter::Nop => match b {
            Filter::Nop => true,
            _ => false,
        },
        Filter::Sub(p) => match b {
            Filter::Sub(q) => same_path(p, q),
            _ => false,
        },
        Filter::Prefix(p) => match b {
            Filter::Prefix(q) => same_path(p, q),
            _ => false,
        },
        Filter::Dir(p) => match b {
            Filter::Dir(q) => same_path(p, q),
            _ => false,
        },
        Filter::File(p) => match b {
            Filter::File(q) => same_path(p, q),
            _ => false,
        },
        Filter::Exclude(f) => match b {
            Filter::Exclude(g) => is_same(f, g),
            _ => false,
        },
        Filter::Join(fs) => same_join(fs.as_slice(), b),
        Filter::Chain(fs) => same_chain(fs.as_slice(), b),
        Filter::Workspace(p) => match b {
            Filter::Workspace(q) => same_path(p, q),
            _ => false,
        },
    }
}

// Whether the filter is the list of these members.
#[cycle(comparing)]
fn same_join(fs: &[Filter], b: &Filter) -> bool
    ensures { result ≡ same_filter (join (shapes fs.now)) (shape b.now) }
{
    match b {
        Filter::Join(gs) => same_all(fs, gs.as_slice()),
        Filter::Nop => false,
        Filter::Sub(_) => false,
        Filter::Prefix(_) => false,
        Filter::Dir(_) => false,
        Filter::File(_) => false,
        Filter::Exclude(_) => false,
        Filter::Chain(_) => false,
        Filter::Workspace(_) => false,
    }
}

// Whether the filter is the chain of these members.
#[cycle(comparing)]
fn same_chain(fs: &[Filter], b: &Filter) -> bool
    ensures { result ≡ same_filter (chain (shapes fs.now)) (shape b.now) }
{
    match b {
        Filter::Chain(gs) => same_all(fs, gs.as_slice()),
        Filter::Nop => false,
        Filter::Sub(_) => false,
        Filter::Prefix(_) => false,
        Filter::Dir(_) => false,
        Filter::File(_) => false,
        Filter::Exclude(_) => false,
        Filter::Join(_) => false,
        Filter::Workspace(_) => false,
    }
}

#[cycle(comparing)]
fn same_all(fs: &[Filter], gs: &[Filter]) -> bool
    ensures { result ≡ same_filters (shapes fs.now) (shapes gs.now) }
{
    if fs.len() != gs.len() {
        return false;
    }
    for i in 0..fs.len() {
        if !is_same(&fs[i], &gs[i]) {
            return false;
        }
    }
    true
}

/// Whether two filters are the same.
pub fn same(a: &Filter, b: &Filter) -> bool
    ensures test { result ≡ same_filter (shape a.now) (shape b.now) }
    ensures equal { IsTrue result ↔ (shape a.now ≡ shape b.now) }
{
    is_same(a, b)
}
