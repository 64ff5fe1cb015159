//! Nodes, the hub that contains them with all services in one value, and the hub that commands drive.
pub use iox_command::{Command, HubError, Refusal, Reply};
pub use iox_hub_base::{Hub, HubConfig, NodeHandle};
pub use iox_hub_commands::{NumberedHub, RunReport};
