//! Decodes the description of a line.
ghost use Rattle.std.specs.Prelude.{◌≡◌, ◌⊎◌, ◌↔◌, ◌<◌, ◌++◌, ◌∷◌, [], List, ℕ, length, Ok, Err, Some, IfOk, IfSome, IsSomeAnd, IsTrue};
ghost use Rattle.std.specs.Prelude.{MatchResult};
ghost use Rattle.serde_json.specs.Find.{get};
ghost use Rattle.serde_json.specs.View.{view};
ghost use Rattle.iox_describe_verdict.specs.DescribeBase.declared.attribute.Attribute.{Attribute};
ghost use Rattle.iox_describe_verdict.specs.DescribeBase.declared.hash.ServiceHash.{ServiceHash};
ghost use Rattle.iox_describe_verdict.specs.DescribeBase.declared.message_type.MessageTypeDetails.{MessageTypeDetails};
ghost use Rattle.iox_describe_verdict.specs.DescribeBase.Detail.{Detail};
ghost use Rattle.iox_describe_verdict.specs.DescribeSettings.declared.setting.SettingValue.{SettingValue};
ghost use Rattle.iox_describe_verdict.specs.DescribeSettings.declared.description.Version.{Version};
ghost use Rattle.iox_describe_verdict.specs.DescribeSettings.declared.static_config.Settings.{Settings};
ghost use Rattle.iox_describe_verdict.specs.DescribeSettings.declared.static_config.Settings.TheVariants.{PublishSubscribe};
ghost use Rattle.iox_describe_verdict.specs.DescribeSettings.declared.static_config.publish_subscribe.StaticConfig.{StaticConfig};
ghost use Rattle.iox_describe_verdict.specs.DescribeSettings.Agreement.{Agreement, pattern_of};
ghost use Rattle.iox_describe_verdict.specs.DescribeSettings.Setting.{filled, IsOfKind};
ghost use Rattle.iox_describe_verdict.specs.DescribeBase.Attributes.{AreAttributes, IsAttribute};
ghost use Rattle.iox_describe_verdict.specs.DescribeBase.Hash.{hash_text};
ghost use Rattle.iox_describe.specs.declared.error.DescriptionError.TheVariants.{Invalid, NotInVersion1, OutOfMemory};
ghost use Rattle.iox_describe.specs.Line.{attribute_tree, attributes_tree, detail_tree, line, pattern_word, settings_tree, tree, Spells};
ghost use Rattle.iox_describe_verdict.specs.DescribeSettings.Versions.{HasAll};
ghost use Rattle.iox_describe.specs.Line.{types_tree, value_tree};
ghost use Rattle.serde_json.specs.Data.{string};
ghost use Rattle.iox_describe.specs.Reading.{AreFound};
ghost use Rattle.iox_describe.specs.Within.{AreSettings, AreTypes, AreValues, HasForm, IsHash, IsTypeDetail, IsValue, IsWithinLimits};

use crate::error::DescriptionError;
use crate::json_values::{number_at, text_at};
use crate::writer::{encode_as, has_all};
use iox_describe_base::{
    AttributeSpecifier, MessageTypeDetails, MessagingPattern, ServiceHash, ServiceName, TypeDetail,
    TypeVariant, ZeroCopySend,
};
use iox_describe_settings::{
    Description, PatternSetting, Rule, SettingValue, Settings, Version, event, publish_subscribe,
    request_response,
};
use serde_json::Value;
use std::alloc::Global;

/// The maximum length of a line, in bytes, for a description within the limits.
const MAX_LINE_LENGTH: usize = 32_768;

/// Decodes the description that the bytes encode.
///
/// The result is the description within the limits for which `encode` or `encode_v1` writes exactly these bytes. It is `Invalid` exactly if
/// there is none, so always for more than 32,768 bytes. It is `OutOfMemory` only if memory ran out.
pub fn decode(alloc: Global, bytes: &[u8]) -> Result<Description, DescriptionError>
    ensures spelled { IfOk result (Spells bytes.now) }
    ensures within { IfOk result (λ description. IsWithinLimits description) }
    ensures read { (description : Agreement) → IsWithinLimits description → Spells bytes.now description
        → (result ≡ Ok description) ⊎ (result ≡ Err OutOfMemory) }
    ensures invalid { result ≡ Err Invalid → (description : Agreement) → IsWithinLimits description → Spells bytes.now description → ⊥ }
    ensures longer { 32_768 < length bytes.now → result ≡ Err Invalid }
    ensures known { result ≡ Err NotInVersion1 → ⊥ }
{
    if bytes.len() > MAX_LINE_LENGTH {
        return Err(DescriptionError::Invalid);
    }
    let value = value_of(alloc, bytes)?;
    let attributes = attributes_of(alloc, &value)?;
    let version = version_of(&value);
    let description = candidate(attributes, version, &value).ok_or(DescriptionError::Invalid)?;
    if !is_within_limits(&description) || !has_all(version, description.settings()) {
        return Err(DescriptionError::Invalid);
    }
    let line = encode_as(alloc, version, &description)?;
    if line.as_slice() != bytes {
        return Err(DescriptionError::Invalid);
    }
    Ok(description)
}

/// Whether a description is within the limits, so that `decode` reads what `encode` writes for it.
///
/// The texts, types and attributes of a description always are within the limits, but the numbers in its settings may not be.
pub fn is_within_limits(description: &Description) -> bool
    ensures { IsTrue result ↔ IsWithinLimits description.now }
{
    has_form(description);
    description.is_within_limits()
}

/// Every description has texts and attributes within their limits, a hash of 20 bytes, and 64-bit numbers in its settings. This function
/// does nothing; a proof calls it to use this fact about a description.
///
/// Not in `iceoryx2`.
pub fn has_form(description: &Description)
    ensures { HasForm description.now }
{
    let _name = description.name().as_bytes();
    let _attributes = description.attributes().as_slice();
    have_64_bits(*description.settings());
    has_20_bytes(*description.service_hash());
}

/// All numbers in the settings have 64 bits, and their types are valid.
fn have_64_bits(settings: Settings)
    ensures { AreSettings settings }
{
    let _settings = settings;
}

/// A hash has 20 bytes.
fn has_20_bytes(hash: ServiceHash)
    ensures { IsHash hash }
{
    let _hash = hash;
}

/// Parses the bytes as JSON, if they are the line of a description.
fn value_of(alloc: Global, bytes: &[u8]) -> Result<Value, DescriptionError>
    ensures read { (version : Version) (description : Agreement) → IsWithinLimits description → bytes.now ≡ line version description
        → MatchResult result (λ value. view value ≡ tree version description) (λ error. error ≡ OutOfMemory) }
    ensures known { result ≡ Err NotInVersion1 → ⊥ }
{
    Ok(Value::from_slice(alloc, bytes)?)
}

/// The version that the JSON states; version 2 if it states none.
fn version_of(value: &Value) -> Version
    ensures { (version : Version) (description : Agreement) → view value.now ≡ tree version description → result ≡ version }
{
    match number_at(value, "version") {
        Some(1) => Version::One,
        _ => Version::Two,
    }
}

/// The attributes of the description that this JSON encodes, if it encodes one.
fn attributes_of(alloc: Global, value: &Value) -> Result<AttributeSpecifier, DescriptionError>
    ensures read { (version : Version) (description : Agreement) → IsWithinLimits description → view value.now ≡ tree version description
        → MatchResult result (λ attributes. attributes ≡ description.attributes) (λ error. error ≡ OutOfMemory) }
    ensures known { result ≡ Err NotInVersion1 → ⊥ }
{
    match value.get("attributes") {
        Some(list) => defined(alloc, list),
        None => Err(DescriptionError::Invalid),
    }
}

/// The description with these attributes that this JSON of the version encodes, if it encodes one.
fn candidate(attributes: AttributeSpecifier, version: Version, value: &Value) -> Option<Description>
    ensures { (description : Agreement) → IsWithinLimits description → HasAll version description.settings
        → attributes ≡ description.attributes → view value.now ≡ tree version description
        → result ≡ Some description }
{
    let name = ServiceName::new(text_at(value, "name")?.as_bytes()).ok()?;
    let hash = hash_of(text_at(value, "service_hash")?);
    let pattern = pattern_of(text_at(value, "pattern")?);
    let settings = settings_of(pattern, version, value.get("settings")?)?;
    Some(Description::of_parts(name, hash, settings, attributes))
}

/// The pattern with this word.
fn pattern_of(word: &str) -> MessagingPattern
    ensures { (settings : Settings) → word.now ≡ pattern_word (pattern_of settings) → result ≡ pattern_of settings }
{
    match word {
        "request_response" => MessagingPattern::RequestResponse,
        "publish_subscribe" => MessagingPattern::PublishSubscribe,
        _ => MessagingPattern::Event,
    }
}

/// The hash with this text.
fn hash_of(digits: &str) -> ServiceHash
    ensures { (hash : ServiceHash) → IsHash hash → digits.now ≡ hash_text hash → result ≡ hash }
{
    let mut digest = [0; 20];
    let _ = hex::decode_to_slice(digits.as_bytes(), &mut digest);
    ServiceHash { digest }
}

/// The attributes of a list, in their order.
fn defined(alloc: Global, value: &Value) -> Result<AttributeSpecifier, DescriptionError>
    ensures read { (pairs : List Attribute) → AreAttributes pairs → view value.now ≡ attributes_tree pairs
        → MatchResult result (λ attributes. attributes ≡ pairs) (λ error. error ≡ OutOfMemory) }
    ensures known { result ≡ Err NotInVersion1 → ⊥ }
{
    let Some(list) = value.as_array() else {
        return Err(DescriptionError::Invalid);
    };
    let mut attributes = AttributeSpecifier::new();
    for item in list {
        define(alloc, &mut attributes, item)?;
    }
    Ok(attributes)
}

/// Defines the attribute that this JSON encodes.
fn define(
    alloc: Global,
    attributes: &mut AttributeSpecifier,
    value: &Value,
) -> Result<(), DescriptionError>
    ensures read { (pair : Attribute) → IsAttribute pair → length attributes.old < 8 → view value.now ≡ attribute_tree pair
        → MatchResult result (λ _. attributes.new ≡ attributes.old ++ pair ∷ []) (λ error. error ≡ OutOfMemory) }
    ensures known { result ≡ Err NotInVersion1 → ⊥ }
{
    let (Some(key), Some(text)) = (text_of(value, 0), text_of(value, 1)) else {
        return Err(DescriptionError::Invalid);
    };
    attributes.define(alloc, key.as_bytes(), text.as_bytes())?;
    Ok(())
}

/// The text at this index of a list.
fn text_of(value: &Value, place: usize) -> Option<&str>
    ensures first { (pair : Attribute) → view value.now ≡ attribute_tree pair → place ≡ 0 → IsSomeAnd result (λ text. text.now ≡ pair.key) }
    ensures second { (pair : Attribute) → view value.now ≡ attribute_tree pair → place ≡ 1
        → IsSomeAnd result (λ text. text.now ≡ pair.value) }
{
    value.get(place)?.as_str()
}

/// The settings of a service of the pattern. A setting that a line of the version can't state has its default.
fn settings_of(pattern: MessagingPattern, version: Version, value: &Value) -> Option<Settings>
    ensures { (settings : Settings) → AreSettings settings → HasAll version settings → pattern ≡ pattern_of settings
        → view value.now ≡ settings_tree version settings
        → result ≡ Some settings }
{
    match pattern {
        MessagingPattern::RequestResponse => {
            let config = request_response::StaticConfig::new(some_types(), some_types());
            let config = all_filled::<request_response::Setting>(config, value)?;
            Some(Settings::RequestResponse(config))
        }
        MessagingPattern::PublishSubscribe => {
            let config = publish_subscribe_of(version, value)?;
            Some(Settings::PublishSubscribe(config))
        }
        MessagingPattern::Event => {
            let config = all_filled::<event::Setting>(event::StaticConfig::new(), value)?;
            Some(Settings::Event(config))
        }
    }
}

/// The settings of a publish-subscribe service. A setting that a line of the version can't state has its default.
fn publish_subscribe_of(version: Version, value: &Value) -> Option<publish_subscribe::StaticConfig>
    ensures { (target : StaticConfig) → AreSettings (PublishSubscribe target) → HasAll version (PublishSubscribe target)
        → view value.now ≡ settings_tree version (PublishSubscribe target)
        → result ≡ Some target }
{
    let config = publish_subscribe::StaticConfig::new(some_types());
    filled(publish_subscribe::Setting::written(version), config, value)
}

/// Placeholder types, used until the types of the messages are read.
fn some_types() -> MessageTypeDetails {
    MessageTypeDetails::from::<u8, u8, u8>(TypeVariant::FixedSize)
}

/// The configuration after all settings of a pattern are read from the JSON.
fn all_filled<S: PatternSetting>(config: S::Config, value: &Value) -> Option<S::Config>
    ensures { (target : S.Config) → AreValues S.value target S.all → AreFound S.key S.value S.all target (view value.now)
        → result ≡ Some target }
{
    filled::<S>(S::all(), config, value)
}

/// The configuration after these settings are read from the JSON.
fn filled<S: PatternSetting>(settings: &[S], config: S::Config, value: &Value) -> Option<S::Config>
    ensures { (target : S.Config) → AreValues S.value target settings.now → AreFound S.key S.value settings.now target (view value.now)
        → result ≡ Some (filled S.value S.changed settings.now target config) }
{
    let mut config = config;
    for setting in settings {
        set::<S>(*setting, &mut config, value)?;
    }
    Some(config)
}

/// Changes a setting to its value in the JSON.
fn set<S: PatternSetting>(setting: S, config: &mut S::Config, value: &Value) -> Option<()>
    ensures { (target : S.Config) → IsValue (S.value setting target)
        → get (S.key setting) (view value.now) ≡ Some (value_tree (S.value setting target))
        → (result ≡ Some tt) × (config.new ≡ S.changed setting (S.value setting target) config.old) }
{
    let value = setting_value(setting.rule(), value.get(setting.key())?)?;
    setting.set(config, value);
    Some(())
}

/// The value of a setting with this rule.
fn setting_value(rule: Rule, value: &Value) -> Option<SettingValue>
    ensures read { (setting : SettingValue) → IsOfKind rule setting → IsValue setting → view value.now ≡ value_tree setting
        → result ≡ Some setting }
    ensures kind { IfSome result (IsOfKind rule) }
{
    match rule {
        Rule::Switch(_) => Some(SettingValue::Switch(value.as_bool()?)),
        Rule::Number(_) => Some(SettingValue::Number(value.as_u64()?)),
        Rule::OptionalNumber(_) => Some(SettingValue::OptionalNumber(value.as_u64())),
        Rule::Types => Some(SettingValue::Types(types_of(value)?)),
    }
}

/// The types of a message.
fn types_of(value: &Value) -> Option<MessageTypeDetails>
    ensures { (types : MessageTypeDetails) → AreTypes types → view value.now ≡ types_tree types → result ≡ Some types }
{
    Some(MessageTypeDetails {
        header: detail_of(value.get("header")?)?,
        user_header: detail_of(value.get("user_header")?)?,
        payload: detail_of(value.get("payload")?)?,
    })
}

/// The detail of a type.
fn detail_of(value: &Value) -> Option<TypeDetail>
    ensures { (detail : Detail) → IsTypeDetail detail → view value.now ≡ detail_tree detail → result ≡ Some detail }
{
    let name = text_at(value, "name")?;
    let variant = match text_at(value, "variant")? {
        "Dynamic" => TypeVariant::Dynamic,
        _ => TypeVariant::FixedSize,
    };
    let size = number_at(value, "size")?;
    let alignment = number_at(value, "alignment")?;
    TypeDetail::new(variant, name.as_bytes(), size, alignment).ok()
}
