//! Encodes a description as one line.
ghost use Rattle.std.specs.Prelude.{◌≡◌, ◌↔◌, ◌⊎◌, List, ℕ, IfOk, IsTrue, MatchResult, OnOk};
ghost use Rattle.iox_describe.specs.declared.error.DescriptionError.TheVariants.{NotInVersion1, OutOfMemory};
ghost use Rattle.iox_describe_verdict.specs.DescribeSettings.Versions.{HasAll};
ghost use Rattle.iox_describe_verdict.specs.DescribeSettings.declared.description.Version.TheVariants.{One, Two};
ghost use Rattle.serde_json.specs.Data.{object, string};
ghost use Rattle.iox_describe.specs.Line.{attribute_tree, attributes_tree, detail_tree, line, natural, pattern_word, settings_members};
ghost use Rattle.iox_describe.specs.Line.{settings_tree, tree, types_tree, value_tree, variant_word};
ghost use Rattle.iox_describe.specs.Writing.{member_tokens, rest_of_array, rest_of_object, value_tokens, Adds};

use crate::error::DescriptionError;
use iox_container::string::String as _;
use iox_describe_base::{Attribute, MessageTypeDetails, MessagingPattern, TypeDetail, TypeVariant};
use iox_describe_settings::{
    Description, PatternSetting, SettingValue, Settings, Version, event, publish_subscribe,
    request_response,
};
use json::Writer;
use std::alloc::{AllocError, Global};

/// How many bytes a line gets at first: most lines without attributes have fewer.
const FIRST_CAPACITY: usize = 1024;

/// Encodes a description as its line of version 2: compact JSON whose keys are in rising order of their bytes. It fails only if an
/// allocation fails.
pub fn encode(alloc: Global, description: &Description) -> Result<Vec<u8>, AllocError>
    ensures { IfOk result (λ text. text.items ≡ line Two description.now) }
{
    encode_as(alloc, Version::Two, description)
}

/// Encodes a description as its line of version 1, for readers that don't know version 2. Refused with `NotInVersion1` exactly if the
/// service numbers its messages, whatever memory there is, and with `OutOfMemory` only if an allocation fails.
///
/// Not in `iceoryx2`.
pub fn encode_v1(alloc: Global, description: &Description) -> Result<Vec<u8>, DescriptionError>
    ensures text { IfOk result (λ text. (text.items ≡ line One description.now) × HasAll One description.now.settings) }
    ensures refused { MatchResult result (λ text. Unit {0}) (λ error. (error ≡ OutOfMemory) × HasAll One description.now.settings
        ⊎ ((error ≡ NotInVersion1) × (HasAll One description.now.settings → ⊥))) }
{
    if !has_all(Version::One, description.settings()) {
        return Err(DescriptionError::NotInVersion1);
    }
    Ok(encode_as(alloc, Version::One, description)?)
}

/// Whether a line of the version can state all of these settings.
///
/// Not in `iceoryx2`.
pub fn has_all(version: Version, settings: &Settings) -> bool
    ensures { IsTrue result ↔ HasAll version settings.now }
{
    match (version, settings) {
        (Version::One, Settings::PublishSubscribe(config)) => !config.sequence_numbers,
        _ => true,
    }
}

/// Encodes a description as its line of a version that can state all of its settings. It fails only if an allocation fails.
///
/// Not in `iceoryx2`.
pub fn encode_as(
    alloc: Global,
    version: Version,
    description: &Description,
) -> Result<Vec<u8>, AllocError>
    requires { HasAll version description.now.settings }
    ensures { IfOk result (λ text. text.items ≡ line version description.now) }
{
    let mut out = Writer::new(Vec::with_capacity(alloc, FIRST_CAPACITY)?);
    write_description(alloc, &mut out, version, description)?;
    Ok(out.into_inner())
}

/// Writes a description as JSON of the version.
fn write_description(
    alloc: Global,
    out: &mut Writer,
    version: Version,
    description: &Description,
) -> Result<(), AllocError>
    ensures { OnOk result (Adds (value_tokens (tree version description.now)) out.old out.new) }
{
    let hash = hex::encode(alloc, &description.service_hash().digest)?;
    out.begin_object()?;
    out.key("attributes")?;
    write_attributes(out, description.attributes().as_slice())?;
    write_text(out, "name", description.name().as_str())?;
    write_text(out, "pattern", pattern_word(description.pattern()))?;
    write_text(out, "service_hash", hash.as_str())?;
    out.key("settings")?;
    write_settings(out, version, description.settings())?;
    write_number(out, "version", version.number())?;
    out.end_object()
}

/// The word of a pattern.
fn pattern_word(pattern: MessagingPattern) -> &'static str
    ensures { result.now ≡ pattern_word pattern }
{
    match pattern {
        MessagingPattern::RequestResponse => "request_response",
        MessagingPattern::PublishSubscribe => "publish_subscribe",
        MessagingPattern::Event => "event",
    }
}

/// Writes a text under a key.
fn write_text(out: &mut Writer, key: &str, text: &str) -> Result<(), AllocError>
    ensures { OnOk result (Adds (member_tokens key.now (string text.now)) out.old out.new) }
{
    out.key(key)?;
    out.string(text)
}

/// Writes a number under a key.
fn write_number(out: &mut Writer, key: &str, number: u64) -> Result<(), AllocError>
    ensures { OnOk result (Adds (member_tokens key.now (natural number)) out.old out.new) }
{
    out.key(key)?;
    out.u64(number)
}

/// Writes attributes as JSON.
fn write_attributes(out: &mut Writer, attributes: &[Attribute]) -> Result<(), AllocError>
    ensures { OnOk result (Adds (value_tokens (attributes_tree attributes.now)) out.old out.new) }
{
    out.begin_array()?;
    write_items(out, attributes)
}

/// Writes the items of an array, each an attribute, and ends the array.
fn write_items(out: &mut Writer, attributes: &[Attribute]) -> Result<(), AllocError>
    ensures { OnOk result (Adds (rest_of_array attributes.now) out.old out.new) }
{
    for attribute in attributes {
        write_attribute(out, attribute)?;
    }
    out.end_array()
}

/// Writes an attribute as JSON.
fn write_attribute(out: &mut Writer, attribute: &Attribute) -> Result<(), AllocError>
    ensures { OnOk result (Adds (value_tokens (attribute_tree attribute.now)) out.old out.new) }
{
    out.begin_array()?;
    out.string(attribute.key.as_str())?;
    out.string(attribute.value.as_str())?;
    out.end_array()
}

/// Writes the settings of a service as JSON of the version.
fn write_settings(out: &mut Writer, version: Version, settings: &Settings) -> Result<(), AllocError>
    ensures { OnOk result (Adds (value_tokens (settings_tree version settings.now)) out.old out.new) }
{
    match settings {
        Settings::RequestResponse(config) => write_object(
            out,
            request_response::Setting::all(),
            config,
        ),
        Settings::PublishSubscribe(config) => write_object(
            out,
            publish_subscribe::Setting::written(version),
            config,
        ),
        Settings::Event(config) => write_object(out, event::Setting::all(), config),
    }
}

/// Writes these settings of a pattern as a JSON object.
fn write_object<S: PatternSetting>(
    out: &mut Writer,
    settings: &[S],
    config: &S::Config,
) -> Result<(), AllocError>
    ensures { OnOk result (Adds (value_tokens (object (settings_members S.key S.value settings.now config.now))) out.old out.new) }
{
    out.begin_object()?;
    write_members::<S>(out, settings, config)
}

/// Writes the members of an object, each a setting, and ends the object.
fn write_members<S: PatternSetting>(
    out: &mut Writer,
    settings: &[S],
    config: &S::Config,
) -> Result<(), AllocError>
    ensures { OnOk result (Adds (rest_of_object S.key S.value config.now settings.now) out.old out.new) }
{
    for setting in settings {
        write_setting::<S>(out, *setting, config)?;
    }
    out.end_object()
}

/// Writes a setting under its key.
fn write_setting<S: PatternSetting>(
    out: &mut Writer,
    setting: S,
    config: &S::Config,
) -> Result<(), AllocError>
    ensures { OnOk result (Adds (member_tokens (S.key setting) (value_tree (S.value setting config.now))) out.old out.new) }
{
    out.key(setting.key())?;
    write_value(out, &setting.value(config))
}

/// Writes the value of a setting as JSON.
fn write_value(out: &mut Writer, value: &SettingValue) -> Result<(), AllocError>
    ensures { OnOk result (Adds (value_tokens (value_tree value.now)) out.old out.new) }
{
    match value {
        SettingValue::Switch(switch) => out.boolean(*switch),
        SettingValue::Number(number) => out.u64(*number),
        SettingValue::OptionalNumber(None) => out.null(),
        SettingValue::OptionalNumber(Some(number)) => out.u64(*number),
        SettingValue::Types(types) => write_types(out, types),
    }
}

/// Writes the types of a message as JSON.
fn write_types(out: &mut Writer, types: &MessageTypeDetails) -> Result<(), AllocError>
    ensures { OnOk result (Adds (value_tokens (types_tree types.now)) out.old out.new) }
{
    out.begin_object()?;
    write_detail(out, "header", &types.header)?;
    write_detail(out, "payload", &types.payload)?;
    write_detail(out, "user_header", &types.user_header)?;
    out.end_object()
}

/// Writes the detail of a type under a key.
fn write_detail(out: &mut Writer, key: &str, detail: &TypeDetail) -> Result<(), AllocError>
    ensures { OnOk result (Adds (member_tokens key.now (detail_tree detail.now)) out.old out.new) }
{
    out.key(key)?;
    out.begin_object()?;
    write_number(out, "alignment", detail.alignment())?;
    write_text(out, "name", detail.type_text())?;
    write_number(out, "size", detail.size())?;
    write_text(out, "variant", variant_word(detail.variant()))?;
    out.end_object()
}

/// The word of a variant.
fn variant_word(variant: TypeVariant) -> &'static str
    ensures { result.now ≡ variant_word variant }
{
    match variant {
        TypeVariant::FixedSize => "FixedSize",
        TypeVariant::Dynamic => "Dynamic",
    }
}
