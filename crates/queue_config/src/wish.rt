//! The attributes that a request asks for.

ghost use Rattle.std.specs.Prelude.{◌≡◌, ◌<◌, codes, length, IfOk, IfErr, OnErr, IsErrOf};
ghost use Rattle.std.specs.Option.{ForSome};
ghost use Rattle.message.specs.Fault.{Meets};
ghost use Rattle.queue_config.specs.Policy.{IsReceiveLimit};
ghost use Rattle.queue_config.specs.SettingRows.{IsInRange};
ghost use Rattle.queue_config.specs.Settings.{no_requested_attributes, requested_target, request_attribute, requested_number, with_setting_value, with_policy, is_ignored_attribute, put_answer};

use crate::decimal::decimal_number;
use crate::policy::{RequestedPolicy, requested_policy};
use crate::setting::{Setting, setting_named, setting_row};
use message::{Fault, QueueName};
use std::alloc::Global;
use std::marker::Model;

/// Requested attributes: the values that `CreateQueue` and `SetQueueAttributes` ask for, each in
/// its range by the type, and nothing for the attributes that were not named.
#[derive(Clone, Copy, Debug)]
pub struct Wish {
    pub(crate) delay_seconds: Option<u16>,
    pub(crate) visibility_timeout: Option<u32>,
    pub(crate) retention_seconds: Option<u32>,
    pub(crate) wait_seconds: Option<u16>,
    pub(crate) maximum_message_size: Option<u32>,
    /// `Some(None)` clears the policy.
    pub(crate) redrive_policy: Option<Option<RequestedPolicy>>,
}

impl Model for Wish {
    ghost use Rattle.queue_config.specs.Settings.{RequestedAttributes};
    ghost use Rattle.queue_config.specs.private.Settings.{AreRequested};

    ghost Value = { RequestedAttributes };

    ghost view = { λ w. record { delay_seconds = w.delay_seconds; visibility_timeout = w.visibility_timeout; retention_seconds = w.retention_seconds; wait_seconds = w.wait_seconds; maximum_message_size = w.maximum_message_size; redrive_policy = w.redrive_policy } };

    ghost invariant = { λ w. AreRequested (record { delay_seconds = w.delay_seconds; visibility_timeout = w.visibility_timeout; retention_seconds = w.retention_seconds; wait_seconds = w.wait_seconds; maximum_message_size = w.maximum_message_size; redrive_policy = w.redrive_policy }) };

    ghost inverse = { λ v. record { delay_seconds = v.delay_seconds; visibility_timeout = v.visibility_timeout; retention_seconds = v.retention_seconds; wait_seconds = v.wait_seconds; maximum_message_size = v.maximum_message_size; redrive_policy = v.redrive_policy } };
}

/// The number of a setting that an attribute's value is, or `InvalidAttributeValue` where it is none
/// in the setting's range.
fn requested_number(setting: Setting, value: &str) -> Result<u32, Fault>
    ensures value { result ≡ requested_number setting value.now }
    ensures range { IfOk result (λ n. IsInRange setting n) }
    ensures fault { IfErr result (λ fault. fault ≡ Fault.InvalidAttributeValue) }
{
    let row = setting_row(setting);
    match decimal_number(value, 9) {
        Some(number) if u64::from(row.least) <= number && number <= u64::from(row.most) => {
            Ok(number as u32)
        }
        _ => Err(Fault::InvalidAttributeValue),
    }
}

/// Whether the attribute is one that is accepted without effect: `Policy`, `KmsMasterKeyId`,
/// `KmsDataKeyReusePeriodSeconds`, `SqsManagedSseEnabled` or `RedriveAllowPolicy`.
pub fn is_ignored(name: &str) -> bool
    ensures { result ≡ is_ignored_attribute name.now }
{
    name == "Policy"
        || name == "KmsMasterKeyId"
        || name == "KmsDataKeyReusePeriodSeconds"
        || name == "SqsManagedSseEnabled"
        || name == "RedriveAllowPolicy"
}

impl Wish {
    /// Nothing is requested.
    pub fn new() -> Wish
        ensures { result ≡ no_requested_attributes }
    {
        Wish {
            delay_seconds: None,
            visibility_timeout: None,
            retention_seconds: None,
            wait_seconds: None,
            maximum_message_size: None,
            redrive_policy: None,
        }
    }

    /// The name of the dead-letter queue that is asked for: `None` where no policy is asked for,
    /// and `Some(None)` where the policy is cleared.
    pub fn target(&self) -> Option<Option<QueueName>>
        ensures { result ≡ requested_target self.now }
    {
        match self.redrive_policy {
            None => None,
            Some(None) => Some(None),
            Some(Some(policy)) => Some(Some(policy.name)),
        }
    }

    /// The request with another number for a setting.
    pub(crate) fn with_setting_value(self, setting: Setting, number: u32) -> Wish
        requires { IsInRange setting number }
        ensures { result ≡ with_setting_value setting (Some number) self }
    {
        let mut wish = self;
        match setting {
            Setting::DelaySeconds => wish.delay_seconds = Some(number as u16),
            Setting::VisibilityTimeout => wish.visibility_timeout = Some(number),
            Setting::MessageRetentionPeriod => wish.retention_seconds = Some(number),
            Setting::ReceiveMessageWaitTimeSeconds => wish.wait_seconds = Some(number as u16),
            Setting::MaximumMessageSize => wish.maximum_message_size = Some(number),
        }
        wish
    }

    /// The request with this policy, or with the clearing of the policy.
    pub(crate) fn with_policy(self, policy: Option<RequestedPolicy>) -> Wish
        requires { ForSome policy (λ policy. IsReceiveLimit policy.max_receive_count) }
        ensures { result ≡ with_policy policy self }
    {
        Wish {
            redrive_policy: Some(policy),
            ..self
        }
    }

    /// Requests one more attribute; a name that was requested before gets the new value. A name
    /// that no queue has is `InvalidAttributeName`, a value out of range or of another form
    /// `InvalidAttributeValue`; after a refusal the request is as it was. `RedrivePolicy` asks for a
    /// policy, or clears it with the empty text; no other name, and no clearing, takes memory. The
    /// values of `Policy`, `KmsMasterKeyId`, `KmsDataKeyReusePeriodSeconds`, `SqsManagedSseEnabled`
    /// and `RedriveAllowPolicy` are ignored.
    pub fn put(&mut self, alloc: Global, name: &str, value: &str) -> Result<(), Fault>
        ensures answer { Meets (put_answer result self.new) (request_attribute self.old name.now value.now) }
        ensures unchanged { OnErr result (self.new ≡ self.old) }
        ensures memory { IsErrOf result Fault.OutOfMemory → (name.now ≡ codes "RedrivePolicy") × (0 < length value.now) }
    {
        match setting_named(name) {
            Some(setting) => {
                let number = requested_number(setting, value)?;
                *self = self.with_setting_value(setting, number);
            }
            None if name == "RedrivePolicy" => {
                *self = self.with_policy(requested_policy(alloc, value)?);
            }
            None if is_ignored(name) => {}
            None => return Err(Fault::InvalidAttributeName),
        }
        Ok(())
    }
}
