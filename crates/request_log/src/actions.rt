//! The actions that are counted: those of aws_json's table, each at its place there.

ghost use Rattle.std.specs.Prelude.{◌≡◌, ◌≢◌, ◌<◌, None, codes};
ghost use Rattle.aws_json.specs.Request.{action_row};
ghost use Rattle.request_log.specs.Actions.{places, place_of, name_at};

use aws_json::{ACTION_COUNT, action_at, action_place};

/// How many places there are: one for each action that is served, and a last one for all else.
pub const PLACES: usize = ACTION_COUNT + 1;

/// Each action that is served has a place, and there is one more.
pub fn places_are_all()
    ensures { PLACES ≡ places }
{}

/// The place of an action; the last one where it is not served.
pub fn place_of(action: &str) -> usize
    ensures place { result ≡ place_of action.now }
    ensures range { result < places }
    ensures served { action_row action.now ≢ None → name_at result ≡ action.now }
    ensures unserved { action_row action.now ≡ None → name_at result ≡ codes "-" }
{
    match action_place(action) {
        Some(place) => place,
        None => ACTION_COUNT,
    }
}

/// The name of the action at a place, and a hyphen from the last one on.
pub fn name_at(place: usize) -> &'static str
    ensures { result.now ≡ name_at place }
{
    match action_at(place) {
        Some(name) => name,
        None => "-",
    }
}
