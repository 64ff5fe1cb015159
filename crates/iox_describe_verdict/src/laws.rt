//! Theorems about requirements. Each one is the contract of a function that does nothing.
ghost use Rattle.std.specs.Prelude.{◌≡◌, Ok};
ghost use Rattle.iox_describe_settings.specs.Agreement.{Agreement};
ghost use Rattle.iox_describe_verdict.specs.Verdict.{first_unmet};
ghost use Rattle.iox_describe_verdict.specs.EventClauses as event;
ghost use Rattle.iox_describe_verdict.specs.PublishSubscribeClauses as publish_subscribe;
ghost use Rattle.iox_describe_verdict.specs.RequestResponseClauses as request_response;
ghost use Rattle.iox_describe_verdict.specs.declared.requirement.event.Requirement as event_requirement;
ghost use Rattle.iox_describe_verdict.specs.declared.requirement.publish_subscribe.Requirement as publish_subscribe_requirement;
ghost use Rattle.iox_describe_verdict.specs.declared.requirement.request_response.Requirement as request_response_requirement;

/// An event service that meets a requirement meets every weaker one.
pub fn weaker_event_requirement_is_met()
    ensures { (weak strong : event_requirement.Requirement) (a : Agreement) → event.IsWeaker weak strong
        → first_unmet (event.clauses strong a) ≡ Ok tt → first_unmet (event.clauses weak a) ≡ Ok tt }
{}

/// A publish-subscribe service that meets a requirement meets every weaker one.
pub fn weaker_publish_subscribe_requirement_is_met()
    ensures { (weak strong : publish_subscribe_requirement.Requirement) (a : Agreement) → publish_subscribe.IsWeaker weak strong
        → first_unmet (publish_subscribe.clauses strong a) ≡ Ok tt → first_unmet (publish_subscribe.clauses weak a) ≡ Ok tt }
{}

/// A request-response service that meets a requirement meets every weaker one.
pub fn weaker_request_response_requirement_is_met()
    ensures { (weak strong : request_response_requirement.Requirement) (a : Agreement) → request_response.IsWeaker weak strong
        → first_unmet (request_response.clauses strong a) ≡ Ok tt → first_unmet (request_response.clauses weak a) ≡ Ok tt }
{}
