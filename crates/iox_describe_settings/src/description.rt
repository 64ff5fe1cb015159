//! The description of a service, which states what its nodes agree on.
ghost use Rattle.std.specs.Prelude.{◌≡◌, ◌↔◌, [], IsOk, IfOk, IsTrue};

use crate::static_config::Settings;
use iox_describe_base::attribute::AttributeSpecifier;
use iox_describe_base::hash::{ServiceHash, service_hash};
use iox_describe_base::name::ServiceName;
use iox_describe_base::pattern::MessagingPattern;
use std::alloc::{AllocError, Global};
use std::marker::Model;

/// A version of the line that encodes a description.
///
/// Not in `iceoryx2`.
#[derive(Clone, Copy)]
pub enum Version {
    /// Version 1, which has no `sequence_numbers`.
    One,
    /// Version 2, which has all settings.
    Two,
}

impl Version {
    ghost use Rattle.iox_describe_settings.specs.Versions.{number_of};

    /// The number with which a line states its version.
    pub fn number(self) -> u64
        ensures { result ≡ number_of self }
    {
        match self {
            Version::One => 1,
            Version::Two => 2,
        }
    }
}

/// What the nodes of a service agree on: its name, its hash, its settings and its attributes.
/// Contracts see it as the record `Agreement` of these four.
///
/// Ported from `iceoryx2::service::static_config::StaticConfig`.
#[derive(Debug)]
pub struct Description {
    name: ServiceName,
    service_hash: ServiceHash,
    settings: Settings,
    attributes: AttributeSpecifier,
}

/// Stated once here, so that crates above don't have to prove it again.
impl Drop for Description {
    fn drop(self) {
        let Description {
            name: _,
            service_hash: _,
            settings: _,
            attributes: _,
        } = self;
    }
}

impl Model for Description {
    ghost use Rattle.iox_describe_settings.specs.Agreement.{Agreement, agreement};

    ghost Value = { Agreement };

    ghost view = { λ d. agreement d.name d.service_hash d.settings d.attributes };
}

impl Description {
    ghost use Rattle.iox_describe_settings.specs.Agreement.{agreement, pattern_of, max_nodes_of, AreWithinLimits};
    ghost use Rattle.iox_describe_base.specs.Hash.{hash_text, service_hash_of, service_hash_text};

    /// The description of a service with this name, and with the hash that belongs to its pattern and name.
    pub fn new(name: ServiceName, settings: Settings, attributes: AttributeSpecifier) -> Self
        ensures parts { result ≡ agreement name (service_hash_of (pattern_of settings) name) settings attributes }
        ensures hash { hash_text result.service_hash ≡ service_hash_text (pattern_of settings) name }
    {
        let service_hash = service_hash(settings.pattern(), &name);
        Description {
            name,
            service_hash,
            settings,
            attributes,
        }
    }

    /// The description with these parts, whatever its hash is.
    pub fn of_parts(
        name: ServiceName,
        service_hash: ServiceHash,
        settings: Settings,
        attributes: AttributeSpecifier,
    ) -> Self
        ensures { result ≡ agreement name service_hash settings attributes }
    {
        Description {
            name,
            service_hash,
            settings,
            attributes,
        }
    }

    /// A copy of the description in memory of its own. It fails only if an allocation fails, and never without attributes.
    pub fn try_clone(&self, alloc: Global) -> Result<Self, AllocError>
        ensures same { IfOk result (λ description. description ≡ self.now) }
        ensures empty { self.now.attributes ≡ [] → IsOk result }
    {
        Ok(Description {
            name: self.name,
            service_hash: self.service_hash,
            settings: self.settings,
            attributes: self.attributes.try_clone(alloc)?,
        })
    }

    /// The name of the service.
    pub fn name(&self) -> &ServiceName
        ensures { result.now ≡ self.now.name }
    {
        &self.name
    }

    /// The messaging pattern of the service.
    pub fn pattern(&self) -> MessagingPattern
        ensures { result ≡ pattern_of self.now.settings }
    {
        self.settings.pattern()
    }

    /// The hash that the description states, which is to identify the service.
    pub fn service_hash(&self) -> &ServiceHash
        ensures { result.now ≡ self.now.service_hash }
    {
        &self.service_hash
    }

    /// The settings of the service.
    pub fn settings(&self) -> &Settings
        ensures { result.now ≡ self.now.settings }
    {
        &self.settings
    }

    /// The attributes of the service.
    pub fn attributes(&self) -> &AttributeSpecifier
        ensures { result.now ≡ self.now.attributes }
    {
        &self.attributes
    }

    /// The maximum number of nodes of the service.
    pub fn max_nodes(&self) -> u64
        ensures { result ≡ max_nodes_of self.now.settings }
    {
        self.settings.max_nodes()
    }

    /// Whether the numbers in the settings are within the limits of a description.
    pub fn is_within_limits(&self) -> bool
        ensures { IsTrue result ↔ AreWithinLimits self.now.settings }
    {
        self.settings.are_within_limits()
    }
}

/// Two descriptions are equal if their names, hashes, settings and attributes are equal.
impl PartialEq for Description {
    ghost use Rattle.iox_describe_settings.specs.SameAgreement.{same_agreement, same_agreement_laws};

    ghost eq = { same_agreement };

    ghost laws = { same_agreement_laws };

    fn eq(&self, other: &Self) -> bool
        ensures same { result ≡ same_agreement self.now other.now }
        ensures exact { IsTrue result ↔ (self.now ≡ other.now) }
    {
        self.is_same(other)
    }
}

impl Description {
    ghost use Rattle.iox_describe_settings.specs.SameAgreement.{same_agreement};

    /// Whether the names, hashes, settings and attributes are equal.
    fn is_same(&self, other: &Self) -> bool
        ensures { result ≡ same_agreement self.now other.now }
    {
        self.name == other.name
            && self.service_hash == other.service_hash
            && self.settings == other.settings
            && self.attributes == other.attributes
    }
}
