//! To whom a connection leads.
ghost use Rattle.std.specs.Prelude.{◌≡◌, get_or, None};
ghost use Rattle.std.specs.List.{position};
ghost use Rattle.iox_domain_ports.specs.Places.{leads_to};

/// To whom a connection leads.
#[derive(Clone, Copy)]
pub struct Reader {
    /// The number of the subscriber.
    pub subscriber: u64,
    /// Whether the subscriber reads from the connection: it attached to it, and wasn't closed since.
    pub attached: bool,
}

impl Reader {
    /// Whether the connection leads to this subscriber.
    pub fn leads_to(reader: Option<Reader>, subscriber: u64) -> bool
        ensures { result ≡ leads_to subscriber reader }
    {
        match reader {
            Some(reader) => reader.subscriber == subscriber,
            None => false,
        }
    }
}
