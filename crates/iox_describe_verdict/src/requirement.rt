//! What an opener requires of a service, and the compatibility check of a description.
ghost use Rattle.std.specs.Prelude.{◌≡◌, ◌∷◌, List, Bool, true, Option, None, Some, if◌then◌else◌, map, option_map};
ghost use Rattle.iox_describe_verdict.specs.Earliest.{earlier, earliest, AreSame, rise};
ghost use Rattle.iox_describe_settings.specs.declared.setting.SettingValue.{SettingValue};
ghost use Rattle.iox_describe_settings.specs.declared.setting.SettingValue.TheVariants.{Switch, Number, OptionalNumber};
ghost use Rattle.iox_describe_verdict.specs.Verdict.{first_unmet, is_met};

pub mod event;
pub mod publish_subscribe;
pub mod request_response;

use iox_describe_settings::PatternSetting;

/// A setting of a messaging pattern that a requirement may name.
///
/// The clauses of a pattern are tested in the order of the variants of its `ClauseError`.
trait RequiredSetting: PatternSetting {
    /// What an opener requires of a service of this pattern.
    type Requirement;

    /// Why a service of this pattern can't be opened.
    type ClauseError: Copy + Ord;

    // the value that is asked of a setting, if it is named
    ghost named: { Self → Self.Requirement → Option SettingValue };

    // the error if the service's settings don't meet that
    ghost error: { Self → Self.ClauseError };

    /// Whether the value of the setting meets what is asked of it, if it is named.
    fn is_met(self, requirement: &Self::Requirement, given: &Self::Config) -> bool
        ensures { result ≡ is_met (named self requirement.now) (Self.value self given.now) };

    /// The error if the service's settings don't meet that.
    fn error(self) -> Self::ClauseError
        ensures { result ≡ error self };
}

/// The error of the first clause that isn't met, among the one on the attributes and those on the settings, in the order of their errors.
fn first_unmet<S: RequiredSetting>(
    attributes: (bool, S::ClauseError),
    requirement: &S::Requirement,
    given: &S::Config,
) -> Result<(), S::ClauseError>
    ensures { (clauses : List (Bool × S.ClauseError))
        → AreSame S.ClauseError.cmp (attributes
        ∷ map (λ setting. (is_met (S.named setting requirement.now) (S.value setting given.now), S.error setting)) S.all) clauses
        → rise S.ClauseError.cmp clauses ≡ true → result ≡ first_unmet clauses }
{
    match earliest_unmet::<S>(error_of_unmet(attributes), requirement, given) {
        None => Ok(()),
        Some(error) => Err(error),
    }
}

/// The error of a clause, if it isn't met.
fn error_of_unmet<E: Copy>(clause: (bool, E)) -> Option<E>
    ensures { result ≡ (if clause.0 then None else Some clause.1) }
{
    if clause.0 { None } else { Some(clause.1) }
}

/// The earliest error among those of the unmet clauses on settings and `before`, if there is one.
fn earliest_unmet<S: RequiredSetting>(
    before: Option<S::ClauseError>,
    requirement: &S::Requirement,
    given: &S::Config,
) -> Option<S::ClauseError>
    ensures { result ≡ earliest S.ClauseError.cmp before
        (map (λ setting. (is_met (S.named setting requirement.now) (S.value setting given.now), S.error setting)) S.all) }
{
    let mut first = before;
    for setting in S::all() {
        if !setting.is_met(requirement, given) {
            first = Some(earlier(first, setting.error()));
        }
    }
    first
}

/// The earlier one of two errors, where there may be no first one.
fn earlier<E: Copy + Ord>(first: Option<E>, error: E) -> E
    ensures { result ≡ earlier E.cmp first error }
{
    match first {
        None => error,
        Some(first) => first.min(error),
    }
}

/// Whether a switch equals the asked one, if one is asked.
fn is_switch_met(asked: Option<bool>, given: bool) -> bool
    ensures { result ≡ is_met (option_map Switch asked) (Switch given) }
{
    match asked {
        None => true,
        Some(asked) => asked == given,
    }
}

/// Whether a number is at least the asked one, if one is asked.
fn is_number_met(asked: Option<u64>, given: u64) -> bool
    ensures { result ≡ is_met (option_map Number asked) (Number given) }
{
    match asked {
        None => true,
        Some(asked) => asked <= given,
    }
}

/// Whether a number or none equals the asked one, if one is asked.
fn is_optional_number_met(asked: Option<Option<u64>>, given: Option<u64>) -> bool
    ensures { result ≡ is_met (option_map OptionalNumber asked) (OptionalNumber given) }
{
    match asked {
        None => true,
        Some(asked) => asked == given,
    }
}
