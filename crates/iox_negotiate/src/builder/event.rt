//! Setters of a builder of event services. Each of them names one setting and changes nothing else.
ghost use Rattle.std.specs.Prelude.{◌≡◌, None, Some};

use crate::builder::ServiceBuilder;
use iox_describe::pattern::Event;

impl ServiceBuilder<Event> {
    /// Sets the maximum time between two events, in nanoseconds.
    /// Example: `builder.deadline(1_000)`
    pub fn deadline(mut self, value: u64) -> Self
        ensures { result ≡ record self { requirement = record self.requirement { deadline = Some (Some value) } } }
    {
        self.requirement.deadline = Some(Some(value));
        self
    }

    /// Sets that the service has no deadline.
    /// Example: `builder.disable_deadline()`
    pub fn disable_deadline(mut self) -> Self
        ensures { result ≡ record self { requirement = record self.requirement { deadline = Some None } } }
    {
        self.requirement.deadline = Some(None);
        self
    }

    /// Sets the maximum number of nodes: an existing service must have at least this, and a created one gets exactly this.
    /// Example: `builder.max_nodes(4)`
    pub fn max_nodes(mut self, value: u64) -> Self
        ensures { result ≡ record self { requirement = record self.requirement { max_nodes = Some value } } }
    {
        self.requirement.max_nodes = Some(value);
        self
    }

    /// Sets the maximum number of notifiers: an existing service must have at least this, and a created one gets exactly this.
    /// Example: `builder.max_notifiers(2)`
    pub fn max_notifiers(mut self, value: u64) -> Self
        ensures { result ≡ record self { requirement = record self.requirement { max_notifiers = Some value } } }
    {
        self.requirement.max_notifiers = Some(value);
        self
    }

    /// Sets the maximum number of listeners: an existing service must have at least this, and a created one gets exactly this.
    /// Example: `builder.max_listeners(2)`
    pub fn max_listeners(mut self, value: u64) -> Self
        ensures { result ≡ record self { requirement = record self.requirement { max_listeners = Some value } } }
    {
        self.requirement.max_listeners = Some(value);
        self
    }

    /// Sets the largest event id: an existing service must have at least this, and a created one gets exactly this.
    /// Example: `builder.event_id_max_value(7)`
    pub fn event_id_max_value(mut self, value: u64) -> Self
        ensures { result ≡ record self { requirement = record self.requirement { event_id_max_value = Some value } } }
    {
        self.requirement.event_id_max_value = Some(value);
        self
    }

    /// Sets the id of the event that announces a new notifier.
    /// Example: `builder.notifier_created_event(1)`
    pub fn notifier_created_event(mut self, value: u64) -> Self
        ensures { result ≡ record self { requirement = record self.requirement { notifier_created_event = Some (Some value) } } }
    {
        self.requirement.notifier_created_event = Some(Some(value));
        self
    }

    /// Sets that no event announces a new notifier.
    /// Example: `builder.disable_notifier_created_event()`
    pub fn disable_notifier_created_event(mut self) -> Self
        ensures { result ≡ record self { requirement = record self.requirement { notifier_created_event = Some None } } }
    {
        self.requirement.notifier_created_event = Some(None);
        self
    }

    /// Sets the id of the event that announces a dropped notifier.
    /// Example: `builder.notifier_dropped_event(2)`
    pub fn notifier_dropped_event(mut self, value: u64) -> Self
        ensures { result ≡ record self { requirement = record self.requirement { notifier_dropped_event = Some (Some value) } } }
    {
        self.requirement.notifier_dropped_event = Some(Some(value));
        self
    }

    /// Sets that no event announces a dropped notifier.
    /// Example: `builder.disable_notifier_dropped_event()`
    pub fn disable_notifier_dropped_event(mut self) -> Self
        ensures { result ≡ record self { requirement = record self.requirement { notifier_dropped_event = Some None } } }
    {
        self.requirement.notifier_dropped_event = Some(None);
        self
    }

    /// Sets the id of the event that announces a dead notifier.
    /// Example: `builder.notifier_dead_event(3)`
    pub fn notifier_dead_event(mut self, value: u64) -> Self
        ensures { result ≡ record self { requirement = record self.requirement { notifier_dead_event = Some (Some value) } } }
    {
        self.requirement.notifier_dead_event = Some(Some(value));
        self
    }

    /// Sets that no event announces a dead notifier.
    /// Example: `builder.disable_notifier_dead_event()`
    pub fn disable_notifier_dead_event(mut self) -> Self
        ensures { result ≡ record self { requirement = record self.requirement { notifier_dead_event = Some None } } }
    {
        self.requirement.notifier_dead_event = Some(None);
        self
    }
}
