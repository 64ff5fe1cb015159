//! The settings of a messaging pattern, as a list.
ghost use Rattle.std.specs.Prelude.{◌≡◌, ◌↔◌, ℕ, List, true, All, IfSome, IsTrue};
ghost use Rattle.iox_describe_settings.specs.declared.setting.Rule.{Rule};
ghost use Rattle.iox_describe_settings.specs.declared.setting.SettingValue.{SettingValue};
ghost use Rattle.iox_describe_settings.specs.Setting.{adjusted, adjusted_value, all_same, default_of, defaulted, filled, keys_rise};
ghost use Rattle.iox_describe_settings.specs.Setting.{same_value, IsAllowed, IsOfKind};

use iox_describe_base::message_type::MessageTypeDetails;

/// The value of a setting.
#[derive(Clone, Copy)]
pub enum SettingValue {
    /// A switch, which says whether something is done.
    Switch(bool),
    /// A number or a maximum.
    Number(u64),
    /// A number, or none.
    OptionalNumber(Option<u64>),
    /// The types of a message.
    Types(MessageTypeDetails),
}

/// The default of a number, and its limits.
#[derive(Clone, Copy)]
pub struct NumberRule {
    /// The value if nothing is asked.
    pub default: u64,
    /// The smallest number that is possible; `create` raises a smaller one to it.
    pub least: u64,
    /// The number must be below this; `None` if only its 64 bits bound it.
    pub end: Option<u64>,
}

/// The kind of a setting's value, its default, and its limits.
#[derive(Clone, Copy)]
pub enum Rule {
    /// A switch, and its default.
    Switch(bool),
    /// A number.
    Number(NumberRule),
    /// A number or none, and its default.
    OptionalNumber(Option<u64>),
    /// The types of a message, which have no default.
    Types,
}

impl Rule {
    ghost use Rattle.iox_describe_settings.specs.Setting.{number};

    /// The rule of a number: its default, the least that it counts as, and, if there is one, the `end` that it must be below.
    pub fn number(default: u64, least: u64, end: Option<u64>) -> Self
        ensures { result ≡ number default least end }
    {
        Rule::Number(NumberRule {
            default,
            least,
            end,
        })
    }

    /// The value if nothing is asked; `None` for types.
    pub fn default_value(self) -> Option<SettingValue>
        ensures value { result ≡ default_of self }
        ensures kind { IfSome result (IsOfKind self) }
    {
        match self {
            Rule::Switch(switch) => Some(SettingValue::Switch(switch)),
            Rule::Number(number) => Some(SettingValue::Number(number.default)),
            Rule::OptionalNumber(option) => Some(SettingValue::OptionalNumber(option)),
            Rule::Types => None,
        }
    }

    /// The value for `create`: a number is raised to the least possible one, and any other value stays.
    pub fn adjusted(self, value: SettingValue) -> SettingValue
        ensures value { result ≡ adjusted_value self value }
        ensures kind { IsOfKind self value → IsOfKind self result }
    {
        match (self, value) {
            (Rule::Number(rule), SettingValue::Number(number)) => SettingValue::Number(number.max(
                rule.least,
            )),
            _ => value,
        }
    }

    /// Whether the value is within its limits; any value other than a number is.
    pub fn allows(self, value: SettingValue) -> bool
        ensures { IsTrue result ↔ IsAllowed self value }
    {
        match (self, value) {
            (Rule::Number(rule), SettingValue::Number(number)) => rule.allows(number),
            _ => true,
        }
    }
}

impl NumberRule {
    ghost use Rattle.iox_describe_settings.specs.Setting.{IsBetween};

    /// Whether the number is within the limits.
    fn allows(self, number: u64) -> bool
        ensures { IsTrue result ↔ IsBetween self number }
    {
        match self.end {
            None => self.least <= number,
            Some(end) => self.least <= number && number < end,
        }
    }
}

/// A setting of a messaging pattern.
///
/// The encoding of a description, its decoding, `create` and a compatibility check all iterate over the list of a pattern's settings. So a
/// new setting is a new item of this list, with its cases in the functions below.
pub trait PatternSetting: Copy + 'static {
    /// The settings of a service.
    type Config: Copy;

    // all settings of the pattern, in rising order of the bytes of their keys
    ghost all: { List Self };

    // the key of a setting
    ghost key: { Self → List ℕ };

    // the kind, the default and the limits of a setting
    ghost rule: { Self → Rule };

    // the value of a setting
    ghost value: { Self → Self.Config → SettingValue };

    // the configuration after a setting is changed to a value of its kind
    ghost changed: { Self → SettingValue → Self.Config → Self.Config };

    /// All settings of the pattern, in rising order of the bytes of their keys.
    fn all() -> &'static [Self]
        ensures { result.now ≡ all };

    /// The key of the setting in a description.
    fn key(self) -> &'static str
        ensures { result.now ≡ key self };

    /// The kind of the setting's value, its default, and its limits.
    fn rule(self) -> Rule
        ensures { result ≡ rule self };

    /// The value of the setting.
    fn value(self, config: &Self::Config) -> SettingValue
        ensures { result ≡ value self config.now };

    /// Changes the setting to a value of its kind.
    fn set(self, config: &mut Self::Config, to: SettingValue)
        requires { IsOfKind (rule self) to }
        ensures { config.new ≡ changed self to config.old };

    // the keys are in rising order of their bytes
    ghost in_order: { keys_rise key all ≡ true };

    // the values of a setting are of its kind
    ghost of_kind: { (setting : Self) (config : Self.Config) → IsOfKind (rule setting) (value setting config) };

    // changing each setting to its value in another configuration gives that configuration
    ghost is_whole: { (target config : Self.Config) → filled value changed all target config ≡ target };
}

/// The configuration with each setting that has a default changed to it.
pub fn with_defaults<S: PatternSetting>(config: S::Config) -> S::Config
    ensures { result ≡ defaulted S.rule S.changed S.all config }
{
    let mut config = config;
    for setting in S::all() {
        if let Some(value) = setting.rule().default_value() {
            setting.set(&mut config, value);
        }
    }
    config
}

/// The configuration for `create`: each number is raised to the least possible one.
pub fn adjusted<S: PatternSetting>(config: S::Config) -> S::Config
    ensures { result ≡ adjusted S.rule S.value S.changed S.all config }
{
    let mut config = config;
    for setting in S::all() {
        let value = setting.rule().adjusted(setting.value(&config));
        setting.set(&mut config, value);
    }
    config
}

/// Whether each number is within its limits.
pub fn are_allowed<S: PatternSetting>(config: &S::Config) -> bool
    ensures { IsTrue result ↔ All (λ setting. IsAllowed (S.rule setting) (S.value setting config.now)) S.all }
{
    S::all()
        .iter()
        .all(|setting| setting.rule().allows(setting.value(config)))
}

/// Whether each setting is equal in both configurations.
pub fn are_same<S: PatternSetting>(first: &S::Config, second: &S::Config) -> bool
    ensures { result ≡ all_same S.value S.all first.now second.now }
{
    for setting in S::all() {
        if !is_same(setting.value(first), setting.value(second)) {
            return false;
        }
    }
    true
}

/// Whether two values are equal.
fn is_same(first: SettingValue, second: SettingValue) -> bool
    ensures { result ≡ same_value first second }
{
    match (first, second) {
        (SettingValue::Switch(first), SettingValue::Switch(second)) => first == second,
        (SettingValue::Number(first), SettingValue::Number(second)) => first == second,
        (SettingValue::OptionalNumber(first), SettingValue::OptionalNumber(second)) => first
            == second,
        (SettingValue::Types(first), SettingValue::Types(second)) => first == second,
        _ => false,
    }
}
