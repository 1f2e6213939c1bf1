//! What the entries of a journal come to, kept beside it: what is asked of it at every command.

ghost use Rattle.std.specs.Prelude.{◌≡◌, ◌+◌, ◌<◌, ◌^◌, ◌||◌, false, None, if◌then◌else◌};
ghost use Rattle.queue_core.specs.Messages.{effect_of, settings_after, gives_settings, closes};
ghost use Rattle.queue_core.specs.private.Tally.{births};

use crate::reading::{begins, closes, gives_settings, settings_after};
use journal::{Event, Moment};
use message::Content;
use queue_config::Settings;

/// The settings in force, when the queue was opened and when it last got settings, whether it was closed, and
/// how many messages it ever had.
#[derive(Clone, Copy, Debug)]
pub(crate) struct Tally {
    pub settings: Settings,
    pub created: Moment,
    pub modified: Moment,
    pub is_closed: bool,
    pub messages: u64,
}

impl Tally {
    /// That of a queue that was just opened.
    pub(crate) fn opened(settings: Settings, at: Moment) -> Tally
        ensures { (result.settings ≡ settings) × (result.created ≡ at) × (result.modified ≡ at) × (result.is_closed ≡ false) × (result.messages ≡ 0) }
    {
        Tally {
            settings,
            created: at,
            modified: at,
            is_closed: false,
            messages: 0,
        }
    }

    /// The same behind one entry more, which does not open the queue and is no checkpoint, where there were so many messages.
    pub(crate) fn after(self, messages: u64, at: Moment, event: &Event<Content>) -> Tally
        requires few { messages < 2 ^ 63 }
        requires alone { (effect_of event.now).since ≡ None }
        ensures settings { result.settings ≡ settings_after self.settings event.now }
        ensures created { result.created ≡ self.created }
        ensures modified { result.modified ≡ (if gives_settings event.now then at else self.modified) }
        ensures closed { result.is_closed ≡ (self.is_closed || closes event.now) }
        ensures messages { result.messages ≡ messages + births event.now }
    {
        Tally {
            settings: settings_after(self.settings, event),
            created: self.created,
            modified: if gives_settings(event) {
                at
            } else {
                self.modified
            },
            is_closed: self.is_closed || closes(event),
            messages: if begins(event) {
                messages + 1
            } else {
                messages
            },
        }
    }
}
