//! The paths.

ghost use Rattle.std.specs.Prelude.{◌≡◌, ℕ, List, ◌∷◌, Some, IfOk, option_map, codes};
ghost use Rattle.statistics_api.specs.private.Router.{router_rows};
ghost use Rattle.statistics_api.specs.Routes.{slash, after, until_slash, from_slash, queue_route, queue_target, target_of};
ghost use Rattle.statistics_api.specs.private.Cut.{IsCut};

use matchit::{InsertError, Router};
use std::alloc::Global;

/// What a path asks for.
#[derive(Clone, Copy, Debug, PartialEq, Eq)]
pub(crate) enum Route {
    /// The statistics of all queues.
    Queues,
    /// Those of one queue.
    Queue,
    /// Its rows.
    Rows,
    /// Its alarms.
    Alarms,
}

/// What a path asks for, and of which queue; the name is empty where it asks for all of them.
#[derive(Clone, Copy)]
pub(crate) struct Target<'p> {
    pub route: Route,
    pub name: &'p str,
}

/// The router of all paths.
pub(crate) fn routes(alloc: Global) -> Result<Router<Route>, InsertError>
    ensures { IfOk result (λ router. router ≡ router_rows) }
{
    let mut router = Router::new(alloc);
    router.insert("/statistics/queues", Route::Queues)?;
    router.insert("/statistics/queues/{name}", Route::Queue)?;
    router.insert("/statistics/queues/{name}/rows", Route::Rows)?;
    router.insert("/statistics/queues/{name}/alarms", Route::Alarms)?;
    Ok(router)
}

/// What a path asks for, or `None` where there is no such path.
pub(crate) fn target_of<'p>(router: &Router<Route>, path: &'p str) -> Option<Target<'p>>
    requires { router.now ≡ router_rows }
    ensures { option_map (λ t. (t.route, t.name.now)) result ≡ target_of path.now }
{
    match router.at(path) {
        Ok(found) => Some(Target {
            route: *found.value,
            name: found.params.get("name").unwrap_or(""),
        }),
        Err(_) => None,
    }
}

/// What stands behind the part of a path that all queues have in common.
fn behind_queues(path: &str) -> Option<&str>
    ensures { option_map (λ s. s.now) result ≡ after (codes "/statistics/queues/") path.now }
{
    path.strip_prefix("/statistics/queues/")
}

/// A text up to its first slash, and what stands behind that.
fn cut(text: &str) -> Option<(&str, &str)>
    ensures { IsCut text.now result }
{
    text.split_once('/')
}

/// What is asked for of a queue, by what stands behind its name and a slash.
fn route_behind(text: &str) -> Option<Route>
    ensures { result ≡ queue_route (slash ∷ text.now) }
{
    match text {
        "rows" => Some(Route::Rows),
        "alarms" => Some(Route::Alarms),
        _ => None,
    }
}

/// What is asked for of a queue of a name. A name has at least one byte.
#[tactic(auto, using(crate::proofs::PlainLemmas::empty_name, crate::proofs::PlainLemmas::some_route))]
fn queue_target(name: &str, route: Route) -> Option<Target<'_>>
    ensures { (rest : List ℕ) → queue_route rest ≡ Some route → option_map (λ t. (t.route, t.name.now)) result ≡ queue_target name.now rest }
{
    if name.is_empty() {
        return None;
    }
    Some(Target { route, name })
}

/// What is asked for of a queue, by a text that begins with its name.
fn target_in(text: &str) -> Option<Target<'_>>
    ensures { option_map (λ t. (t.route, t.name.now)) result ≡ queue_target (until_slash text.now) (from_slash text.now) }
{
    match cut(text) {
        None => queue_target(text, Route::Queue),
        Some((name, behind)) => queue_target(name, route_behind(behind)?),
    }
}

/// What a path asks for, or `None` where there is no such path: the same as [`target_of`], without the
/// router, which takes memory.
pub(crate) fn target_without_memory(path: &str) -> Option<Target<'_>>
    ensures { option_map (λ t. (t.route, t.name.now)) result ≡ target_of path.now }
{
    if path == "/statistics/queues" {
        return Some(Target {
            route: Route::Queues,
            name: "",
        });
    }
    target_in(behind_queues(path)?)
}
