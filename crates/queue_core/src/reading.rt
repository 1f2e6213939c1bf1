//! What a single event says of a queue's settings, its messages and its end. Each function has the name of the
//! definition of `specs/` that it computes.

ghost use Rattle.std.specs.Prelude.{◌≡◌, None};
ghost use Rattle.queue_core.specs.Messages.{effect_of, settings_after, gives_settings, closes};
ghost use Rattle.queue_core.specs.private.Slots.{one_if};
ghost use Rattle.queue_core.specs.private.Tally.{births};

use crate::effect::{Change, effect_of};
use journal::Event;
use message::Content;
use queue_config::Settings;

/// The settings after an event.
pub fn settings_after(settings: Settings, event: &Event<Content>) -> Settings
    ensures { result ≡ settings_after settings event.now }
{
    let effect = effect_of(event);
    let given = effect.settings.unwrap_or(settings);
    match effect.change {
        Change::BringBack(target) => given.without_target(target),
        _ => given,
    }
}

/// Whether an event, which is no checkpoint, begins a message. None of these begins more than one.
pub(crate) fn begins(event: &Event<Content>) -> bool
    requires alone { (effect_of event.now).since ≡ None }
    ensures { births event.now ≡ one_if result }
{
    effect_of(event).birth.is_some()
}

/// Whether an event gives the queue its settings.
pub fn gives_settings(event: &Event<Content>) -> bool
    ensures { result ≡ gives_settings event.now }
{
    effect_of(event).settings.is_some()
}

/// Whether an event closes the queue.
pub fn closes(event: &Event<Content>) -> bool
    ensures { result ≡ closes event.now }
{
    matches!(effect_of(event).change, Change::Close)
}
