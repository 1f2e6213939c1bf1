//! The settings of a queue.

ghost use Rattle.std.specs.Prelude.{◌≡◌, ◌↔◌, IsTrue};
ghost use Rattle.queue_config.specs.SettingRows.{setting_row};
ghost use Rattle.queue_config.specs.Settings.{default_settings, setting_value, policy_with, policy_without, settings_with, same_settings, without_target};

use crate::policy::{RedrivePolicy, RequestedPolicy};
use crate::setting::{Setting, setting_row};
use crate::wish::Wish;
use std::marker::Model;

/// The settings of a queue. Each number is in the range of its [`Setting`] by the type, and the
/// policy's number of receives is 1 to 1,000.
#[derive(Clone, Copy, Debug, PartialEq, Eq)]
pub struct Settings {
    /// How long a sent message stays delayed where the send says nothing, in seconds.
    pub delay_seconds: u16,
    /// How long a received message stays in flight where the receive says nothing, in seconds.
    pub visibility_timeout: u32,
    /// How long messages are kept, in seconds.
    pub retention_seconds: u32,
    /// How long a receive waits for a message where it says nothing, in seconds.
    pub wait_seconds: u16,
    /// How large a message may be, in bytes.
    pub maximum_message_size: u32,
    /// Where a message goes that is received too often, and when. None: it stays.
    pub redrive_policy: Option<RedrivePolicy>,
}

impl Model for Settings {
    ghost use Rattle.queue_config.specs.Settings.{QueueSettings, AreSettings};

    ghost Value = { QueueSettings };

    ghost view = { λ s. record { delay_seconds = s.delay_seconds; visibility_timeout = s.visibility_timeout; retention_seconds = s.retention_seconds; wait_seconds = s.wait_seconds; maximum_message_size = s.maximum_message_size; redrive_policy = s.redrive_policy } };

    ghost invariant = { λ s. AreSettings (record { delay_seconds = s.delay_seconds; visibility_timeout = s.visibility_timeout; retention_seconds = s.retention_seconds; wait_seconds = s.wait_seconds; maximum_message_size = s.maximum_message_size; redrive_policy = s.redrive_policy }) };

    ghost inverse = { λ v. record { delay_seconds = v.delay_seconds; visibility_timeout = v.visibility_timeout; retention_seconds = v.retention_seconds; wait_seconds = v.wait_seconds; maximum_message_size = v.maximum_message_size; redrive_policy = v.redrive_policy } };
}

/// What a setting is where nothing is said.
fn default_of(setting: Setting) -> u32
    ensures { result ≡ (setting_row setting).default }
{
    let row = setting_row(setting);
    row.default
}

impl Default for Settings {
    ghost is_default = { λ settings. settings ≡ default_settings };

    /// The defaults of the settings' table.
    fn default() -> Settings {
        Settings {
            delay_seconds: default_of(Setting::DelaySeconds) as u16,
            visibility_timeout: default_of(Setting::VisibilityTimeout),
            retention_seconds: default_of(Setting::MessageRetentionPeriod),
            wait_seconds: default_of(Setting::ReceiveMessageWaitTimeSeconds) as u16,
            maximum_message_size: default_of(Setting::MaximumMessageSize),
            redrive_policy: None,
        }
    }
}

/// The policy with what is requested in its place. `target` is the uid that the requested name
/// stands for.
fn policy_with(
    policy: Option<RedrivePolicy>,
    asked: Option<Option<RequestedPolicy>>,
    target: u64,
) -> Option<RedrivePolicy>
    ensures { result ≡ policy_with policy asked target }
{
    match asked {
        None => policy,
        Some(None) => None,
        Some(Some(asked)) => Some(RedrivePolicy {
            target,
            name: asked.name,
            max_receive_count: asked.max_receive_count,
        }),
    }
}

/// The policy, or none where its dead-letter queue is `target`.
fn policy_without(policy: Option<RedrivePolicy>, target: u64) -> Option<RedrivePolicy>
    ensures { result ≡ policy_without policy target }
{
    policy.filter(|policy| policy.target != target)
}

/// Whether two settings are the same.
fn same_settings(settings: Settings, other: Settings) -> bool
    ensures same { result ≡ same_settings settings other }
    ensures equal { IsTrue result ↔ (settings ≡ other) }
{
    settings == other
}

impl Settings {
    /// The number of a setting.
    pub fn setting_value(self, setting: Setting) -> u32
        ensures { result ≡ setting_value setting self }
    {
        match setting {
            Setting::DelaySeconds => u32::from(self.delay_seconds),
            Setting::VisibilityTimeout => self.visibility_timeout,
            Setting::MessageRetentionPeriod => self.retention_seconds,
            Setting::ReceiveMessageWaitTimeSeconds => u32::from(self.wait_seconds),
            Setting::MaximumMessageSize => self.maximum_message_size,
        }
    }

    /// These settings with what is requested in its place. `target` is the uid that the requested
    /// dead-letter queue's name stands for; it does not count where none is named.
    pub fn with(self, wish: &Wish, target: u64) -> Settings
        ensures { result ≡ settings_with self wish.now target }
    {
        Settings {
            delay_seconds: wish.delay_seconds.unwrap_or(self.delay_seconds),
            visibility_timeout: wish.visibility_timeout.unwrap_or(self.visibility_timeout),
            retention_seconds: wish.retention_seconds.unwrap_or(self.retention_seconds),
            wait_seconds: wish.wait_seconds.unwrap_or(self.wait_seconds),
            maximum_message_size: wish
                .maximum_message_size
                .unwrap_or(self.maximum_message_size),
            redrive_policy: policy_with(self.redrive_policy, wish.redrive_policy, target),
        }
    }

    /// Whether the settings already have what is requested, so that [`with`](Settings::with)
    /// changes nothing.
    pub fn agrees(self, wish: &Wish, target: u64) -> bool
        ensures same { result ≡ same_settings (settings_with self wish.now target) self }
        ensures unchanged { IsTrue result ↔ (settings_with self wish.now target ≡ self) }
    {
        same_settings(self.with(wish, target), self)
    }

    /// These settings, with no policy where its dead-letter queue is `target`.
    pub fn without_target(self, target: u64) -> Settings
        ensures { result ≡ without_target self target }
    {
        Settings {
            redrive_policy: policy_without(self.redrive_policy, target),
            ..self
        }
    }
}
