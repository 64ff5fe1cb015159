//! How far a send is.
ghost use Rattle.std.specs.Prelude.{◌≡◌, ◌+◌, ◌<◌, ◌^◌};
ghost use Rattle.iox_domain_ports.specs.Progress.{start, passed, passed_all, counted, failing, tried_again};

use std::marker::Model;

/// How far a send is: the next place of the list of subscribers, how often and for how long it was tried, how many connections
/// took the message so far, and whether the send will fail.
#[derive(Drop)]
pub struct Progress {
    place: usize,
    retries: u64,
    elapsed: u64,
    delivered: usize,
    fails: bool,
}

impl Model for Progress {
    ghost use Rattle.std.specs.Prelude.{◌≤◌};
    ghost use Rattle.iox_domain_ports.specs.Progress.{ProgressState};

    ghost Value = { ProgressState };

    ghost view = { λ p. record { place = p.place; retries = p.retries; elapsed = p.elapsed; delivered = p.delivered; fails = p.fails } };

    ghost invariant = { λ p. p.delivered ≤ p.place };
}

impl Progress {
    /// The progress of a new send.
    pub fn start() -> Progress
        ensures { result ≡ start }
    {
        Progress {
            place: 0,
            retries: 0,
            elapsed: 0,
            delivered: 0,
            fails: false,
        }
    }

    /// The place that is next.
    pub fn place(&self) -> usize
        ensures { result ≡ self.now.place }
    {
        self.place
    }

    /// How often the place was tried again; 0 at first.
    pub fn retries(&self) -> u64
        ensures { result ≡ self.now.retries }
    {
        self.retries
    }

    /// For how many nanoseconds the place is being tried, as the caller last said; 0 at first.
    pub fn elapsed(&self) -> u64
        ensures { result ≡ self.now.elapsed }
    {
        self.elapsed
    }

    /// How many connections took the message so far.
    pub fn delivered(&self) -> usize
        ensures { result ≡ self.now.delivered }
    {
        self.delivered
    }

    /// Whether the send fails once all places are visited.
    pub fn fails(&self) -> bool
        ensures { result ≡ self.now.fails }
    {
        self.fails
    }

    /// Skips the place.
    pub fn pass(&mut self)
        requires { self.old.place + 1 < 2 ^ 64 }
        ensures { self.new ≡ passed self.old }
    {
        self.place += 1;
        self.retries = 0;
        self.elapsed = 0;
    }

    /// Skips this many places.
    pub fn pass_all(&mut self, count: usize)
        requires { self.old.place + count < 2 ^ 64 }
        ensures { self.new ≡ passed_all count self.old }
    {
        if count == 0 {
            return;
        }
        self.place += count;
        self.retries = 0;
        self.elapsed = 0;
    }

    /// Skips the place, and lets the send fail in the end.
    pub fn fail(&mut self)
        requires { self.old.place + 1 < 2 ^ 64 }
        ensures { self.new ≡ failing self.old }
    {
        self.place += 1;
        self.retries = 0;
        self.elapsed = 0;
        self.fails = true;
    }

    /// Counts that the connection of the place took the message, and moves to the next place.
    pub fn count(&mut self)
        requires { self.old.place + 1 < 2 ^ 64 }
        ensures { self.new ≡ counted self.old }
    {
        self.place += 1;
        self.retries = 0;
        self.elapsed = 0;
        self.delivered += 1;
    }

    /// Notes that the place is tried once more, after `elapsed` nanoseconds. Retries are counted up to 2^64 - 1.
    pub fn try_again(&mut self, elapsed: u64)
        ensures { self.new ≡ tried_again elapsed self.old }
    {
        self.retries = self.retries.saturating_add(1);
        self.elapsed = elapsed;
    }
}
