//! A subscriber receives.
ghost use Rattle.std.specs.Prelude.{◌≡◌, ◌+◌, ◌-◌, ◌<◌, ◌≤◌, ◌^◌, slice_get, IfSome, None, Some, true, false};
ghost use Rattle.std.specs.Bool.{OnTrue, OnFalse};
ghost use Rattle.iox_domain_slots.specs.Uses.{is_there};
ghost use Rattle.iox_domain_ports.specs.Subscribing.{attached_at, connection_by, seen_of, has_data, gives, is_idle, ended_key};
ghost use Rattle.iox_domain_ports.specs.Subscribing.{ended_ports, taken_of, taken_ports};
ghost use Rattle.iox_domain_ports.specs.Receiving.{IsFirst, IsMet, IsGiver, IsGiverThere, is_idle_at, dropped_port, dropped_ports, swept};
ghost use Rattle.iox_domain_ports.specs.Receiving.{given, given_ports, nothing_taken, left_at, left_all, SweepsAt, Serves, Receives};
ghost use Rattle.iox_domain_ports.specs.Receiving.{IsBusy, IsOneAmong, IsOne, first_of, unmet_from};

use crate::attached::{Asked, Attached, Found, Met, Seen, Taken};
use crate::publishers::Publishers;
use crate::reading::{borrowed_at, waiting_at};
use crate::subscriber_port::SubscriberPort;
use iox_container::SlotMapKey;
use iox_domain_values::ReceiveError;

impl SubscriberPort {
    /// The connection with this key, if the subscriber has one.
    pub fn attached(&self, key: usize) -> Option<Attached>
        ensures { result ≡ attached_at key self.now }
    {
        self.connections.get(SlotMapKey::new(key)).copied()
    }

    // What is counted of the connection with this key; its publisher is looked up once.
    pub(crate) fn seen<T: Copy, U: Copy>(&self, key: usize, publishers: &Publishers<T, U>) -> Seen
        ensures { result ≡ seen_of (attached_at key self.now) publishers.now }
    {
        match self.attached(key) {
            Some(attached) => seen_at(attached, publishers),
            None => nothing_seen(),
        }
    }

    // How many of the keys after `key` have a connection; `unmet` of the keys from `key` on have one.
    fn unmet_behind(&self, key: usize, unmet: usize) -> usize
        requires { unmet ≡ unmet_from key self.now.connections.values }
        ensures { result ≡ unmet_from (key + 1) self.now.connections.values }
    {
        match self.attached(key) {
            Some(_) => unmet - 1,
            None => unmet,
        }
    }

    // Whether a message waits in the connection with this key.
    fn has_data<T: Copy, U: Copy>(&self, key: usize, publishers: &Publishers<T, U>) -> bool
        ensures { result ≡ has_data self.now publishers.now key }
    {
        0 < self.seen(key, publishers).waiting
    }

    // Whether nothing waits in the connection with this key, and nothing of it is borrowed.
    pub(crate) fn is_idle<T: Copy, U: Copy>(
        &self,
        key: usize,
        publishers: &Publishers<T, U>,
    ) -> bool
        ensures { result ≡ is_idle self.now publishers.now key }
    {
        let seen = self.seen(key, publishers);
        seen.waiting == 0 && seen.borrowed == 0
    }

    // Ends the connection with this key.
    pub(crate) fn end_key<T: Copy, U: Copy>(
        &mut self,
        key: usize,
        publishers: &mut Publishers<T, U>,
    )
        ensures port { self.new ≡ ended_key key self.old }
        ensures publishers { publishers.new ≡ ended_ports (attached_at key self.old) publishers.old }
    {
        let Some(attached) = self.attached(key) else {
            return;
        };
        let _removed = self.connections.remove(SlotMapKey::new(key));
        publishers.end(attached.publisher, attached.index);
    }

    // What a receive needs to know of the connection with this key; its publisher is looked up once.
    fn asked<T: Copy, U: Copy>(&self, key: usize, publishers: &Publishers<T, U>) -> Asked
        ensures gives { result.gives ≡ gives self.now publishers.now key }
        ensures data { result.data ≡ has_data self.now publishers.now key }
        ensures idle { result.idle ≡ is_idle self.now publishers.now key }
    {
        let seen = self.seen(key, publishers);
        Asked {
            gives: seen.borrowed < seen.most && 0 < seen.waiting,
            data: 0 < seen.waiting,
            idle: seen.waiting == 0 && seen.borrowed == 0,
        }
    }

    // The first key whose connection gives, or if none does, a key whose connection has data. All expired connections were
    // examined before, so they aren't examined again.
    fn look_through<T: Copy, U: Copy>(&self, met: Met, publishers: &Publishers<T, U>) -> Found
        requires met { IsMet (gives self.now publishers.now) self.now.expired.items met.count }
        requires all { slice_get self.now.expired.items met.count ≡ None }
        requires unread { IsOneAmong (has_data self.now publishers.now) self.now.expired.items met.count met.unread }
        ensures giver { IsFirst (gives self.now publishers.now) result.giver }
        ensures unread { result.giver ≡ None → IsOne (has_data self.now publishers.now) result.unread }
    {
        let mut unread = met.unread;
        let mut unmet = self.connections.len();
        for key in 0..self.connections.reached() {
            if unmet == 0 {
                return Found {
                    giver: None,
                    unread,
                };
            }
            if !self.expired.has(key) {
                let asked = self.asked(key, publishers);
                if asked.gives {
                    return Found {
                        giver: Some(key),
                        unread,
                    };
                }
                unread = first_of(unread, key, asked.data);
            }
            unmet = self.unmet_behind(key, unmet);
        }
        Found {
            giver: None,
            unread,
        }
    }

    // The first key whose connection has data.
    pub(crate) fn first_data<T: Copy, U: Copy>(
        &self,
        publishers: &Publishers<T, U>,
    ) -> Option<usize>
        ensures { IsFirst (has_data self.now publishers.now) result }
    {
        let mut unmet = self.connections.len();
        for key in 0..self.connections.reached() {
            if unmet == 0 {
                return None;
            }
            if self.has_data(key, publishers) {
                return Some(key);
            }
            unmet = self.unmet_behind(key, unmet);
        }
        None
    }

    // Borrows the oldest waiting message of the connection with this key.
    fn take<T: Copy, U: Copy>(&self, key: usize, publishers: &mut Publishers<T, U>) -> Option<Taken>
        requires { gives self.now publishers.old key ≡ true }
        ensures there { is_there (connection_by (attached_at key self.now) publishers.old) ≡ true }
        ensures taken { result ≡ taken_of self.now.number (attached_at key self.now) publishers.old }
        ensures publishers { publishers.new ≡ taken_ports (attached_at key self.now) publishers.old }
    {
        let attached = self.attached(key)?;
        Some(Taken {
            subscriber: self.number,
            publisher: attached.publisher,
            index: attached.index,
            slot: publishers.take(attached.publisher, attached.index),
        })
    }

    // Ends the expired connection at this place of the list if it is idle; answers whether it did.
    fn drop_if_idle<T: Copy, U: Copy>(
        &mut self,
        place: usize,
        publishers: &mut Publishers<T, U>,
    ) -> bool
        ensures answer { result ≡ is_idle_at (slice_get self.old.expired.items place) self.old publishers.old }
        ensures dropped { OnTrue result ((self.new ≡ dropped_port place (slice_get self.old.expired.items place) self.old)
            × (publishers.new ≡ dropped_ports (slice_get self.old.expired.items place) self.old publishers.old)) }
        ensures stays { OnFalse result ((self.new ≡ self.old) × (publishers.new ≡ publishers.old)) }
    {
        let Some(key) = self.expired.at(place) else {
            return false;
        };
        if !self.is_idle(key, publishers) {
            return false;
        }
        self.drop_expired(place, key, publishers);
        true
    }

    // Ends the expired connection with this key, which is at this place of the list.
    pub(crate) fn drop_expired<T: Copy, U: Copy>(
        &mut self,
        place: usize,
        key: usize,
        publishers: &mut Publishers<T, U>,
    )
        ensures port { self.new ≡ dropped_port place (Some key) self.old }
        ensures publishers { publishers.new ≡ dropped_ports (Some key) self.old publishers.old }
    {
        self.end_key(key, publishers);
        self.expired.remove(place);
    }

    // Ends the idle ones of the expired connections from place `first` up to place `count`.
    fn sweep<T: Copy, U: Copy>(
        &mut self,
        first: usize,
        count: usize,
        publishers: &mut Publishers<T, U>,
    )
        ensures port { self.new ≡ (swept first (count - first) (self.old, publishers.old)).0 }
        ensures publishers { publishers.new ≡ (swept first (count - first) (self.old, publishers.old)).1 }
    {
        let mut place = first;
        for _done in first..count {
            place = self.sweep_at(place, publishers);
        }
    }

    // Ends the expired connection at this place of the list if it is idle; answers the place of the next one.
    fn sweep_at<T: Copy, U: Copy>(
        &mut self,
        place: usize,
        publishers: &mut Publishers<T, U>,
    ) -> usize
        requires { place + 1 < 2 ^ 64 }
        ensures { SweepsAt (is_idle_at (slice_get self.old.expired.items place) self.old publishers.old) place self.old publishers.old
            result self.new publishers.new }
    {
        if self.drop_if_idle(place, publishers) {
            place
        } else {
            place + 1
        }
    }

    // Which expired connections come before one that gives; each is examined once.
    fn meet<T: Copy, U: Copy>(&self, publishers: &Publishers<T, U>) -> Met
        ensures met { IsMet (gives self.now publishers.now) self.now.expired.items result.count }
        ensures idle { result.idle ≤ result.count }
        ensures busy { IsBusy self.now publishers.now result.idle }
        ensures unread { IsOneAmong (has_data self.now publishers.now) self.now.expired.items result.count result.unread }
    {
        let count = self.expired.len();
        let mut idle = None;
        let mut unread = None;
        for place in 0..count {
            // There is a key at each place.
            let key = self.expired.at(place).unwrap_or(0);
            let asked = self.asked(key, publishers);
            if asked.gives {
                return Met {
                    count: place,
                    idle: idle.unwrap_or(place),
                    unread,
                };
            }
            idle = first_of(idle, place, asked.idle);
            unread = first_of(unread, key, asked.data);
        }
        Met {
            count,
            idle: idle.unwrap_or(count),
            unread,
        }
    }

    // Which connection gives, after these expired ones were met, and if none does, a key whose connection has data.
    fn look<T: Copy, U: Copy>(&self, met: Met, publishers: &Publishers<T, U>) -> Found
        requires met { IsMet (gives self.now publishers.now) self.now.expired.items met.count }
        requires unread { IsOneAmong (has_data self.now publishers.now) self.now.expired.items met.count met.unread }
        ensures giver { IsGiver (slice_get self.now.expired.items met.count) (gives self.now publishers.now) result.giver }
        ensures gives { IfSome result.giver (λ key. gives self.now publishers.now key ≡ true) }
        ensures unread { result.giver ≡ None → IsOne (has_data self.now publishers.now) result.unread }
    {
        match self.expired.at(met.count) {
            Some(key) => Found {
                giver: Some(key),
                unread: None,
            },
            None => self.look_through(met, publishers),
        }
    }

    // Borrows the message that the giver gives.
    fn take_of<T: Copy, U: Copy>(
        &self,
        giver: Option<usize>,
        publishers: &mut Publishers<T, U>,
    ) -> Option<Taken>
        requires { IfSome giver (λ key. gives self.now publishers.old key ≡ true) }
        ensures there { IsGiverThere giver self.now publishers.old }
        ensures taken { result ≡ given giver self.now publishers.old }
        ensures publishers { publishers.new ≡ given_ports giver self.now publishers.old }
    {
        match giver {
            Some(key) => self.take(key, publishers),
            None => None,
        }
    }

    // Borrows the message that the giver gives, if there is a giver. The idle ones of the expired connections that were met
    // end; they are visited from the first idle one on.
    fn serve<T: Copy, U: Copy>(
        &mut self,
        met: Met,
        giver: Option<usize>,
        publishers: &mut Publishers<T, U>,
    ) -> Option<Taken>
        requires met { IsMet (gives self.old publishers.old) self.old.expired.items met.count }
        requires idle { met.idle ≤ met.count }
        requires busy { IsBusy self.old publishers.old met.idle }
        requires giver { IsGiver (slice_get self.old.expired.items met.count) (gives self.old publishers.old) giver }
        requires gives { IfSome giver (λ key. gives self.old publishers.old key ≡ true) }
        ensures { Serves self.old publishers.old result self.new publishers.new }
    {
        let taken = self.take_of(giver, publishers);
        self.sweep(met.idle, met.count, publishers);
        taken
    }

    // Receives if something may change: a message is taken, or idle expired connections end.
    fn receive_from<T: Copy, U: Copy>(
        &mut self,
        met: Met,
        giver: Option<usize>,
        publishers: &mut Publishers<T, U>,
    ) -> Result<Option<Taken>, ReceiveError>
        requires met { IsMet (gives self.old publishers.old) self.old.expired.items met.count }
        requires idle { met.idle ≤ met.count }
        requires busy { IsBusy self.old publishers.old met.idle }
        requires giver { IsGiver (slice_get self.old.expired.items met.count) (gives self.old publishers.old) giver }
        requires gives { IfSome giver (λ key. gives self.old publishers.old key ≡ true) }
        ensures { Receives self.old publishers.old result self.new publishers.new }
    {
        match self.serve(met, giver, publishers) {
            Some(taken) => Ok(Some(taken)),
            None => nothing_taken(self.first_data(publishers)),
        }
    }

    // Receives from the existing connections. Each is examined once, except expired ones from the first idle one on, and except
    // if no message is taken then.
    pub(crate) fn receive_now<T: Copy, U: Copy>(
        &mut self,
        publishers: &mut Publishers<T, U>,
    ) -> Result<Option<Taken>, ReceiveError>
        ensures { Receives self.old publishers.old result self.new publishers.new }
    {
        let met = self.meet(publishers);
        let found = self.look(met, publishers);
        if met.idle < met.count || found.giver.is_some() {
            return self.receive_from(met, found.giver, publishers);
        }
        nothing_taken(found.unread)
    }

    // Detaches the subscriber from the connection with this key, which ends if its publisher is closed or hasn't met it in the
    // list yet.
    fn leave_key<T: Copy, U: Copy>(&self, key: usize, publishers: &mut Publishers<T, U>)
        ensures { publishers.new ≡ left_at (attached_at key self.now) publishers.old }
    {
        let Some(attached) = self.attached(key) else {
            return;
        };
        if publishers.stands(attached.publisher) {
            publishers.detach(attached.publisher, attached.index, self.place);
        } else {
            publishers.end(attached.publisher, attached.index);
        }
    }

    /// Closes the subscriber: it is detached from its connections, and those of closed publishers end. Samples that it holds
    /// stay in use.
    ///
    /// Ported from the drop of `iceoryx2::port::subscriber::Subscriber`.
    pub fn leave<T: Copy, U: Copy>(&mut self, publishers: &mut Publishers<T, U>)
        ensures port { self.new ≡ record self.old { stands = false } }
        ensures publishers { publishers.new ≡ left_all self.old.connections.values publishers.old }
    {
        self.leave_all(publishers);
        self.stands = false;
    }

    // Detaches the subscriber from all its connections.
    fn leave_all<T: Copy, U: Copy>(&self, publishers: &mut Publishers<T, U>)
        ensures { publishers.new ≡ left_all self.now.connections.values publishers.old }
    {
        let mut unmet = self.connections.len();
        for key in 0..self.connections.reached() {
            if unmet == 0 {
                return;
            }
            self.leave_key(key, publishers);
            unmet = self.unmet_behind(key, unmet);
        }
    }
}

// What is counted of this connection.
fn seen_at<T: Copy, U: Copy>(attached: Attached, publishers: &Publishers<T, U>) -> Seen
    ensures { result ≡ seen_of (Some attached) publishers.now }
{
    match publishers.get(attached.publisher) {
        Some(port) => Seen {
            waiting: waiting_at(port, attached.index),
            borrowed: borrowed_at(port, attached.index),
            most: port.sender.most_borrowed(),
        },
        None => nothing_seen(),
    }
}

// What is counted if there is no connection.
fn nothing_seen() -> Seen
    ensures { result ≡ record { waiting = 0; borrowed = 0; most = 0 } }
{
    Seen {
        waiting: 0,
        borrowed: 0,
        most: 0,
    }
}

// What is answered if no message was taken, and `unread` is a key whose connection has data.
fn nothing_taken(unread: Option<usize>) -> Result<Option<Taken>, ReceiveError>
    ensures { result ≡ nothing_taken unread }
{
    match unread {
        Some(_) => Err(ReceiveError::ExceedsMaxBorrows),
        None => Ok(None),
    }
}

// The first key that passed the test, after one more was tested.
fn first_of(found: Option<usize>, key: usize, passes: bool) -> Option<usize>
    ensures { result ≡ first_of found key passes }
{
    match found {
        Some(first) => Some(first),
        None if passes => Some(key),
        None => None,
    }
}
