//! Theorems about every service that was opened. Each one is the contract of a function that does nothing.
ghost use Rattle.iox_negotiate_base.specs.DescribeSettings.Agreement.{agreement};
ghost use Rattle.iox_negotiate_base.specs.Describe.Within.{HasForm};
ghost use Rattle.iox_negotiate.specs.Laws.{OpenedIsMet, EitherIsMet};
ghost use Rattle.iox_negotiate.specs.Types.{AsksTheLarger};

use iox_describe::{AttributeSpecifier, ServiceHash, ServiceName, Settings};
use iox_negotiate_base::Request;

/// A service that is opened has the requested hash, meets the requirement, and is within the limits of a description.
pub fn opened_is_met<R: Request>()
    ensures { OpenedIsMet R.ClauseError }
{}

/// A service that is opened or created has the requested hash, meets the requirement and is within the limits of a description; or it is
/// what was to be agreed, and its settings weren't refused.
pub fn opened_or_created_is_met<R: Request>()
    ensures { EitherIsMet R.ClauseError }
{}

/// A setter of an alignment asks for the larger of its argument and the alignment of the type, so a smaller argument changes nothing.
pub fn asks_the_larger()
    ensures { AsksTheLarger }
{}

/// A description with these parts has valid ones: its name and its attributes are within their limits, its hash has 20 bytes, and its
/// numbers have 64 bits.
pub fn parts_have_form(
    name: ServiceName,
    hash: ServiceHash,
    settings: Settings,
    attributes: &AttributeSpecifier,
)
    ensures { HasForm (agreement name hash settings attributes.now) }
{
    let _name = name.as_bytes();
    let _attributes = attributes.as_slice();
    let _settings = settings;
    let _hash = hash;
}
