//! The table of the settings of a queue.

ghost use Rattle.std.specs.Prelude.{◌≡◌};
ghost use Rattle.std.specs.List.{find};
ghost use Rattle.std.specs.Str.{bytes_eq};
ghost use Rattle.queue_config.specs.SettingRows.{setting_row, setting_named};
ghost use Rattle.queue_config.specs.private.SettingRows.{setting_with_key};

use std::marker::Model;

/// A setting of a queue that is a number, by the name of its attribute in the Amazon SQS API
/// Reference (`SetQueueAttributes`).
#[derive(Clone, Copy, Debug, PartialEq, Eq)]
pub enum Setting {
    DelaySeconds,
    VisibilityTimeout,
    MessageRetentionPeriod,
    ReceiveMessageWaitTimeSeconds,
    MaximumMessageSize,
}

/// Every setting, in the order in which they are documented.
pub const ALL_SETTINGS: [Setting; 5] = [
    Setting::DelaySeconds,
    Setting::VisibilityTimeout,
    Setting::MessageRetentionPeriod,
    Setting::ReceiveMessageWaitTimeSeconds,
    Setting::MaximumMessageSize,
];

/// What is fixed of a setting. Ranges and defaults are those of Amazon SQS; the keys are this project's own
/// choice.
#[derive(Debug, Drop)]
pub struct SettingRow {
    /// The name of the attribute.
    pub name: &'static str,
    /// The key in a queue's table of a configuration.
    pub key: &'static str,
    /// In seconds, or in bytes for `MaximumMessageSize`.
    pub least: u32,
    /// In the same unit.
    pub most: u32,
    /// What the setting is where nothing is said.
    pub default: u32,
}

impl Model for SettingRow {
    ghost use Rattle.queue_config.specs.SettingRows.{SettingRow};

    ghost Value = { SettingRow };

    ghost view = { λ r. record { name = r.name.now; key = r.key.now; least = r.least; most = r.most; default = r.default } };
}

/// The setting's row of the table.
pub fn setting_row(setting: Setting) -> SettingRow
    ensures { result ≡ setting_row setting }
{
    match setting {
        Setting::DelaySeconds => SettingRow {
            name: "DelaySeconds",
            key: "delay_seconds",
            least: 0,
            most: 900,
            default: 0,
        },
        Setting::VisibilityTimeout => SettingRow {
            name: "VisibilityTimeout",
            key: "visibility_timeout",
            least: 0,
            most: 43_200,
            default: 30,
        },
        Setting::MessageRetentionPeriod => SettingRow {
            name: "MessageRetentionPeriod",
            key: "retention_seconds",
            least: 60,
            most: 1_209_600,
            default: 345_600,
        },
        Setting::ReceiveMessageWaitTimeSeconds => SettingRow {
            name: "ReceiveMessageWaitTimeSeconds",
            key: "wait_seconds",
            least: 0,
            most: 20,
            default: 0,
        },
        Setting::MaximumMessageSize => SettingRow {
            name: "MaximumMessageSize",
            key: "maximum_message_size",
            least: 1024,
            most: 1_048_576,
            default: 1_048_576,
        },
    }
}

/// Whether the setting's attribute has the name.
fn has_name(setting: Setting, name: &str) -> bool
    ensures { result ≡ bytes_eq name.now (setting_row setting).name }
{
    let row = setting_row(setting);
    name == row.name
}

/// Whether the setting has the key.
fn has_key(setting: Setting, key: &str) -> bool
    ensures { result ≡ bytes_eq key.now (setting_row setting).key }
{
    let row = setting_row(setting);
    key == row.key
}

/// The first of the settings whose attribute has the name.
fn first_named(settings: &[Setting], name: &str) -> Option<Setting>
    ensures { result ≡ find (λ setting. bytes_eq name.now (setting_row setting).name) settings.now }
{
    settings
        .iter()
        .copied()
        .find(|setting| has_name(*setting, name))
}

/// The first of the settings that has the key.
fn first_with_key(settings: &[Setting], key: &str) -> Option<Setting>
    ensures { result ≡ find (λ setting. bytes_eq key.now (setting_row setting).key) settings.now }
{
    settings
        .iter()
        .copied()
        .find(|setting| has_key(*setting, key))
}

/// The setting of an attribute's name.
pub fn setting_named(name: &str) -> Option<Setting>
    ensures { result ≡ setting_named name.now }
{
    first_named(&ALL_SETTINGS, name)
}

/// The setting of a key of a queue's table in a configuration.
pub(crate) fn setting_with_key(key: &str) -> Option<Setting>
    ensures { result ≡ setting_with_key key.now }
{
    first_with_key(&ALL_SETTINGS, key)
}
