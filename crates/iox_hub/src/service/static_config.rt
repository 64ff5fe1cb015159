//! The settings on which the nodes of a service agreed, by its pattern.
pub use iox_describe::{Settings, event, publish_subscribe, request_response};
