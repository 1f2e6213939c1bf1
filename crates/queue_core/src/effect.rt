//! What an event does to a queue, said once for each event.

ghost use Rattle.std.specs.Prelude.{◌≡◌, None, option_to_list};
ghost use Rattle.queue_core.specs.Messages.{effect_of, opens};
ghost use Rattle.queue_core.specs.private.Effects.{changed_by, accepted_with};

use journal::{Base, Event, Origin};
use message::Content;
use queue_config::Settings;
use std::marker::Model;

/// The beginning of a message that was not there before. Contracts see it as the definition of that name in `specs/`.
#[derive(Debug, Drop)]
pub(crate) struct Birth<'a> {
    pub content: &'a Content,
    /// How many seconds later it is first due.
    pub delay: u16,
    /// Where it came from, where it was not sent here.
    pub origin: Option<Origin>,
}

impl<'a> Model for Birth<'a> {
    ghost use Rattle.std.specs.Prelude.{Some, None};
    ghost use Rattle.message.specs.Content.{ContentText};
    ghost use Rattle.queue_core.specs.Messages as messages;

    ghost Value = { messages.Birth ContentText };

    ghost view = { λ b. record { content = Some b.content.now; delay = b.delay; origin = b.origin; past = None } };
}

/// What an event does to the messages that are there or have left.
#[derive(Clone, Copy, Debug)]
pub(crate) enum Change<'a> {
    /// Nothing: alone such an event may begin a message.
    Nothing,
    /// Offers messages and hides them for a timeout in seconds; others leave for the dead-letter queue of a uid.
    Receive {
        timeout: u32,
        offered: &'a [u64],
        leaving: &'a [u64],
        target: u64,
    },
    /// The message of a number is due so many seconds later.
    Reschedule(u64, u32),
    /// The message of a number is removed.
    Remove(u64),
    /// Each message that is there is removed.
    RemoveAll,
    /// The retention until then is over.
    EndPeriod,
    /// The transfer of the message of a number is confirmed.
    Confirm(u64),
    /// What has left for the dead-letter queue of a uid comes back.
    BringBack(u64),
    /// Each message goes.
    Close,
    /// All that the queue ever had begins again: it is a checkpoint.
    Base(&'a Base<Content>),
}

/// What an event does to a queue.
#[derive(Debug, Drop)]
pub(crate) struct Effect<'a> {
    /// The message that begins with it.
    pub birth: Option<Birth<'a>>,
    /// The settings from then on.
    pub settings: Option<Settings>,
    pub change: Change<'a>,
}

impl<'a> Effect<'a> {
    /// A change and nothing else.
    fn of(change: Change<'a>) -> Effect<'a>
        ensures { result ≡ record { birth = None; settings = None; change = change.entry } }
    {
        Effect {
            birth: None,
            settings: None,
            change,
        }
    }
}

/// What an event does, and no other function of these asks which one it was. The last arm is for those without an effect:
/// `change` holds it to the definition, which has a clause for each event. What begins with a checkpoint stands in that
/// alone.
pub(crate) fn effect_of(event: &Event<Content>) -> Effect<'_>
    ensures births { (effect_of event.now).since ≡ None → option_to_list result.birth ≡ (effect_of event.now).births }
    ensures accepted { (effect_of event.now).since ≡ None → accepted_with result.birth ≡ (effect_of event.now).accepted }
    ensures settings { result.settings ≡ (effect_of event.now).settings }
    ensures change { effect_of event.now ≡ record (changed_by result.change result.birth) { settings = result.settings; opens = opens event.now } }
{
    match event {
        Event::Opened { settings, .. } => Effect {
            settings: Some(*settings),
            ..Effect::of(Change::Nothing)
        },
        Event::Sent { delay, content } => Effect {
            birth: Some(Birth {
                content,
                delay: *delay,
                origin: None,
            }),
            ..Effect::of(Change::Nothing)
        },
        Event::Arrived { origin, content } => Effect {
            birth: Some(Birth {
                content,
                delay: 0,
                origin: Some(*origin),
            }),
            ..Effect::of(Change::Nothing)
        },
        Event::Received {
            timeout,
            offered,
            leaving,
            target,
        } => Effect::of(Change::Receive {
            timeout: *timeout,
            offered: offered.as_slice(),
            leaving: leaving.as_slice(),
            target: *target,
        }),
        Event::Changed { number, timeout } => Effect::of(Change::Reschedule(*number, *timeout)),
        Event::Deleted { number } => Effect::of(Change::Remove(*number)),
        Event::Purged => Effect::of(Change::RemoveAll),
        Event::Set { settings } => Effect {
            settings: Some(*settings),
            ..Effect::of(Change::EndPeriod)
        },
        Event::Settled { number } => Effect::of(Change::Confirm(*number)),
        Event::Orphaned { target } => Effect::of(Change::BringBack(*target)),
        Event::Closed => Effect::of(Change::Close),
        Event::Base(base) => Effect {
            settings: Some(base.settings()),
            ..Effect::of(Change::Base(base))
        },
        _ => Effect::of(Change::Nothing),
    }
}
