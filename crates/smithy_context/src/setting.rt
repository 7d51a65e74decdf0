//! One setting of a client or an operation.
ghost use Rattle.std.specs.Prelude.{◌≡◌, IfOk, drop};
ghost use Rattle.smithy_context.specs.Setting.{key_in, key_name, key_named, key_of, key_table};
ghost use Rattle.smithy_context.specs.Setting.{place};

use smithy_types::{
    Blob, List, OutOfMemory, RetryConfig, RetryPartition, StalledStreamProtectionConfig, Text,
    TimeoutConfig,
};

/// A setting with its value. A mark has no value: it is there or it isn't.
#[derive(Debug, Drop)]
pub enum Setting {
    /// The deadlines.
    Timeouts(TimeoutConfig),
    /// How the operation is retried.
    Retry(RetryConfig),
    /// Whether streams that stall are given up.
    Stall(StalledStreamProtectionConfig),
    /// Whether the request's body is loaded into memory before the first attempt.
    LoadBody(bool),
    /// Which clients this one shares its retry quota with.
    Partition(RetryPartition),
    /// The number of the bucket that retries are paid from.
    Bucket(u32),
    /// What stands before the endpoint's host.
    Prefix(Text),
    /// The auth schemes in the order in which they are preferred.
    Preference(List<Text>),
    /// A mark: the endpoint is resolved after the auth scheme was chosen.
    V2,
    /// A mark: the parameters of the endpoint resolver are there.
    EndpointParams,
    /// A mark: the parameters of the auth scheme resolver are there.
    AuthParams,
    /// A mark: the response's length is held to its header.
    EnforceLength,
    /// The names of the interceptors that aren't run.
    Disable(List<Text>),
    /// The number of the attempt whose connection is captured.
    Capture(u64),
    /// The number of the attempt whose connection isn't used again.
    Poisoned(u64),
    /// A mark: the upload is watched for stalls.
    Upload,
    /// A setting of the caller's own.
    User(Text, Blob),
}

/// What a setting is known by.
#[derive(Clone, Debug, Drop, PartialEq, Eq)]
pub enum SettingKey {
    /// Of the deadlines.
    Timeouts,
    /// Of how the operation is retried.
    Retry,
    /// Of whether streams that stall are given up.
    Stall,
    /// Of whether the request's body is loaded into memory.
    LoadBody,
    /// Of whom the retry quota is shared with.
    Partition,
    /// Of the bucket's number.
    Bucket,
    /// Of what stands before the endpoint's host.
    Prefix,
    /// Of the order in which auth schemes are preferred.
    Preference,
    /// Of the mark that the endpoint is resolved after the auth scheme was chosen.
    V2,
    /// Of the mark that the endpoint resolver's parameters are there.
    EndpointParams,
    /// Of the mark that the auth scheme resolver's parameters are there.
    AuthParams,
    /// Of the mark that the response's length is held to its header.
    EnforceLength,
    /// Of the names of the interceptors that aren't run.
    Disable,
    /// Of the attempt whose connection is captured.
    Capture,
    /// Of the attempt whose connection isn't used again.
    Poisoned,
    /// Of the mark that the upload is watched for stalls.
    Upload,
    /// Of a setting of the caller's own, by its name.
    User(Text),
}

impl Setting {
    /// What the setting is known by.
    pub fn key(&self) -> Result<SettingKey, OutOfMemory>
        ensures { IfOk result (λ key. key ≡ key_of self.now) }
    {
        match self {
            Setting::Timeouts(_) => Ok(SettingKey::Timeouts),
            Setting::Retry(_) => Ok(SettingKey::Retry),
            Setting::Stall(_) => Ok(SettingKey::Stall),
            Setting::LoadBody(_) => Ok(SettingKey::LoadBody),
            Setting::Partition(_) => Ok(SettingKey::Partition),
            Setting::Bucket(_) => Ok(SettingKey::Bucket),
            Setting::Prefix(_) => Ok(SettingKey::Prefix),
            Setting::Preference(_) => Ok(SettingKey::Preference),
            Setting::V2 => Ok(SettingKey::V2),
            Setting::EndpointParams => Ok(SettingKey::EndpointParams),
            Setting::AuthParams => Ok(SettingKey::AuthParams),
            Setting::EnforceLength => Ok(SettingKey::EnforceLength),
            Setting::Disable(_) => Ok(SettingKey::Disable),
            Setting::Capture(_) => Ok(SettingKey::Capture),
            Setting::Poisoned(_) => Ok(SettingKey::Poisoned),
            Setting::Upload => Ok(SettingKey::Upload),
            Setting::User(name, _) => Ok(SettingKey::User(name.clone()?)),
        }
    }
}

impl SettingKey {
    /// How many places there are in the order of settings: one for each key of the table, and one
    /// for those of the caller's own.
    pub const PLACES: u8 = 17;

    /// The key's name in scripts and prints. A key of the caller's own is named `user` here, and
    /// is told apart by its own name.
    pub fn name(&self) -> &'static str
        ensures { result.now ≡ key_name self.now }
    {
        self.row().1
    }

    /// The key's place in the order of settings, from 0 on. Those of the caller's own come last,
    /// and share one.
    pub fn place(&self) -> u8
        ensures { result ≡ place self.now }
    {
        self.row().0
    }

    // The table of keys: the place and the name of each.
    #[tactic(auto, unfolding(crate::specs::Setting::key_name, crate::specs::Setting::place))]
    fn row(&self) -> (u8, &'static str)
        ensures place { result.0 ≡ place self.now }
        ensures name { result.1.now ≡ key_name self.now }
    {
        match self {
            SettingKey::Timeouts => (0, "timeouts"),
            SettingKey::Retry => (1, "retry"),
            SettingKey::Stall => (2, "stall"),
            SettingKey::LoadBody => (3, "load_body"),
            SettingKey::Partition => (4, "partition"),
            SettingKey::Bucket => (5, "bucket"),
            SettingKey::Prefix => (6, "prefix"),
            SettingKey::Preference => (7, "preference"),
            SettingKey::V2 => (8, "v2"),
            SettingKey::EndpointParams => (9, "endpoint_params"),
            SettingKey::AuthParams => (10, "auth_params"),
            SettingKey::EnforceLength => (11, "enforce_length"),
            SettingKey::Disable => (12, "disable"),
            SettingKey::Capture => (13, "capture"),
            SettingKey::Poisoned => (14, "poisoned"),
            SettingKey::Upload => (15, "upload"),
            SettingKey::User(_) => (16, "user"),
        }
    }

    /// The key of the table that has this name. None of a key of the caller's own.
    #[tactic(auto, unfolding(crate::specs::Setting::key_named))]
    pub fn named(name: &str) -> Option<SettingKey>
        ensures { result ≡ key_named name.now }
    {
        if name == "timeouts" {
            Some(SettingKey::Timeouts)
        } else if name == "retry" {
            Some(SettingKey::Retry)
        } else if name == "stall" {
            Some(SettingKey::Stall)
        } else if name == "load_body" {
            Some(SettingKey::LoadBody)
        } else if name == "partition" {
            Some(SettingKey::Partition)
        } else if name == "bucket" {
            Some(SettingKey::Bucket)
        } else if name == "prefix" {
            Some(SettingKey::Prefix)
        } else if name == "preference" {
            Some(SettingKey::Preference)
        } else {
            later_named(name)
        }
    }
}

// The same, of the rows behind the eighth.
fn later_named(name: &str) -> Option<SettingKey>
    ensures { result ≡ key_in (drop 8 key_table) name.now }
{
    if name == "v2" {
        Some(SettingKey::V2)
    } else if name == "endpoint_params" {
        Some(SettingKey::EndpointParams)
    } else if name == "auth_params" {
        Some(SettingKey::AuthParams)
    } else if name == "enforce_length" {
        Some(SettingKey::EnforceLength)
    } else if name == "disable" {
        Some(SettingKey::Disable)
    } else if name == "capture" {
        Some(SettingKey::Capture)
    } else if name == "poisoned" {
        Some(SettingKey::Poisoned)
    } else if name == "upload" {
        Some(SettingKey::Upload)
    } else {
        None
    }
}
