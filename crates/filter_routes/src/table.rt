// Tables of routes.
ghost use Rattle.std.specs.Prelude.{◌≡◌, ◌≤◌, ◌<◌, ◌^◌, true, is_some, length, Some, IfOk, IfErr};
ghost use Rattle.std.specs.Prelude.{IfSome, IfNone};
ghost use Rattle.filter_text.specs.Filters.{pieces, has_paths};
ghost use Rattle.filter_text.specs.Shapes.{shape};
ghost use Rattle.filter_routes.specs.Images.{image};
ghost use Rattle.filter_routes.specs.Soundness.{IsSound};

use crate::RouteFault;
use crate::lists::list_of;
use crate::search::fault_of;
use decision_lists::{Entry, RouteHit, locate, locate_origin};
use filter_text::{Filter, copy};
use git_objects::Component;
use path_names::Path;
use std::alloc::{AllocError, Global};
use std::marker::Model;

/// The routes of a sound filter: where each path goes, and where each image comes from.
#[derive(Debug, Drop)]
pub struct Table {
    filter: Filter,
    entries: Vec<Entry>,
}

impl Model for Table {
    ghost use Rattle.std.specs.Coded.{codes};
    ghost use Rattle.filter_text.specs.contracts.filter.Filter as filters;
    ghost use Rattle.filter_routes.specs.TableValues.{Table as TableValue, IsTable};

    ghost Value = { TableValue };

    ghost coded = { Prim.hlevel (codes, filters.the_row.coded) };

    ghost view = { λ t. record { filter = t.filter; routes = t.entries.items } };

    ghost invariant = { λ t. IsTable (record { filter = t.filter; routes = t.entries.items }) };
}

impl Table {
    ghost use Rattle.decision_lists.specs.Hits.{image_at, source_hit};
    ghost use Rattle.filter_routes.specs.Lists.{IsListOf};
    ghost use Rattle.filter_routes.specs.Tables.{target, source, IsOrigin, IsTableOf};
    ghost use Rattle.filter_routes.specs.RouteFaults.{IsRouteFault};

    /// The filter's table, if the filter is sound. A workspace is read as the paths below its place.
    pub fn compile(alloc: Global, filter: &Filter) -> Result<Table, RouteFault>
        requires { pieces (shape filter.now) < 2 ^ 32 }
        ensures table { IfOk result (λ t. IsTableOf t (shape filter.now)) }
        ensures fault { IfErr result (IsRouteFault (shape filter.now)) }
    {
        match Table::if_sound(alloc, filter)? {
            None => Err(fault_of(alloc, filter)),
            Some(table) => Ok(table),
        }
    }

    /// The filter's table; None where the filter isn't sound. Where its fault lies isn't looked for: that can take far
    /// longer than to say that there is one.
    pub fn if_sound(alloc: Global, filter: &Filter) -> Result<Option<Table>, AllocError>
        ensures table { IfOk result (λ o. IfSome o (λ t. IsTableOf t (shape filter.now))) }
        ensures unsound { IfOk result (λ o. IfNone o (IsSound (shape filter.now) → ⊥)) }
    {
        match list_of(alloc, filter, true)? {
            None => Ok(None),
            Some(entries) => Ok(Some(Table {
                filter: copy(alloc, filter)?,
                entries,
            })),
        }
    }

    /// The filter whose table it is.
    pub fn filter(&self) -> &Filter
        ensures filter { result.now ≡ self.now.filter }
        ensures sound { IsSound (shape self.now.filter) }
        ensures paths { has_paths (shape self.now.filter) ≡ true }
    {
        &self.filter
    }

    /// The filter's decision list: of the entries that have a path the first decides. Those with a target are the
    /// routes, by their places, and each entry before a route may take paths from it.
    pub fn entries(&self) -> &[Entry]
        ensures entries { result.now ≡ self.now.routes }
        ensures list { IsListOf (shape self.now.filter) self.now.routes }
        ensures sound { IsSound (shape self.now.filter) }
        ensures paths { has_paths (shape self.now.filter) ≡ true }
    {
        self.entries.as_slice()
    }

    /// The route that takes a path to its image, if it has one. Needs no memory.
    pub fn image(&self, path: &Path) -> Option<RouteHit>
        ensures image { image_at self.now.routes result path.now ≡ image (shape self.now.filter) path.now }
        ensures found { is_some result ≡ is_some (image (shape self.now.filter) path.now) }
        ensures route { IfSome result (λ h. is_some (target self.now h.route) ≡ true) }
        ensures cut { IfSome result (λ h. h.cut ≤ length path.now) }
    {
        locate(self.entries.as_slice(), path.components())
    }

    /// The route by which the image comes from its path, if some path has it. The hit's `cut` counts components of the
    /// image. Needs no memory.
    pub fn origin(&self, image: &Path) -> Option<RouteHit>
        ensures source { IsOrigin (shape self.now.filter) image.now (source_hit self.now.routes result image.now) }
        ensures route { IfSome result (λ h. is_some (source self.now h.route) ≡ true) }
        ensures cut { IfSome result (λ h. h.cut ≤ length image.now) }
    {
        locate_origin(self.entries.as_slice(), image.components())
    }

    /// What the route puts before the rest of a path.
    pub fn target(&self, route: usize) -> &[Component]
        requires { is_some (target self.now route) ≡ true }
        ensures { Some result.now ≡ target self.now route }
    {
        match &self.entries[route].target {
            None => &[],
            Some(target) => target.as_slice(),
        }
    }

    /// What the route takes off the front of a path.
    pub fn source(&self, route: usize) -> &[Component]
        requires { is_some (source self.now route) ≡ true }
        ensures { Some result.now ≡ source self.now route }
    {
        self.entries[route].base.as_slice()
    }
}
