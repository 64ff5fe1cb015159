//! Loans of a recorded hub: how they are made, written, dropped and sent.
ghost use Rattle.std.specs.Prelude.{◌≡◌, List, false, Some, IfSome, IfOk, IfErr, MatchResult, length, if◌then◌else◌};
ghost use Rattle.std.specs.Option.{option_map};
ghost use Rattle.iox_command.specs.declared.command.Command.TheVariants as command;
ghost use Rattle.iox_command.specs.declared.refusal.Refusal.TheVariants as refusal;
ghost use Rattle.iox_command.specs.declared.reply.Reply.TheVariants as reply;
ghost use Rattle.iox_container.specs.NumberTable.{inserted, removed, value_at};
ghost use Rattle.iox_delivery.specs.Holding.{loan_found};
ghost use Rattle.iox_delivery.specs.DomainPorts.Messages.{write_value};
ghost use Rattle.iox_delivery.specs.Publishing.{SendsSample, loan_changed, sample_mut_of};
ghost use Rattle.iox_delivery.specs.Slices.{LendsDefaults, LendsSlice, WritesAll};
ghost use Rattle.iox_delivery.specs.declared.sent.Sent.TheVariants as sent;
ghost use Rattle.iox_domain.specs.Homes as homes;
ghost use Rattle.iox_hub_commands.specs.Calls.{may_lend};
ghost use Rattle.iox_hub_commands.specs.Loans.{is_set};
ghost use Rattle.iox_hub_commands.specs.Replies.{done_reply};
ghost use Rattle.iox_hub.specs.Recorded.{Calls, asked_too};
ghost use Rattle.iox_hub.specs.RecordedCalls.{KeepNumbers, answered_as, told_send};
ghost use Rattle.iox_hub.specs.Recording.{IsDoneIf, is_written_with, may_send};

use crate::recorded::calls;
use crate::recorded::history::History;
use crate::recorded::named::{Named, Number};
use crate::recorded::recorded_hub::RecordedHub;
use iox_delivery::kind::Slice;
use iox_delivery::loan::{Loan, LoanState};
use iox_delivery::{Sent, slices as slice};
use iox_describe_base::ZeroCopySend;
use iox_domain::Home;
use iox_domain_values::{LoanError, SendError};
use iox_hub_commands::{PublisherHandlers, SubscriberHandler};
use iox_hub_machine::typed::{typed_calls_are_a_run, typed_publisher_calls_are_steps};
use iox_queues_base::Words;
use std::alloc::Global;

impl<
    T: Words + ZeroCopySend + Default,
    U: Copy + ZeroCopySend + Default,
    B: PublisherHandlers,
    D: SubscriberHandler,
> RecordedHub<T, U, B, D> {
    /// Loans this many unwritten values from a publisher: the command `LoanUninit`. None, and the command is skipped, if the publisher
    /// isn't open, or a send of it is blocked. Other loans keep their numbers.
    ///
    /// Refused as the machine refuses it.
    /// Example: `let Some(Ok(loan)) = hub.loan_slice_uninit(alloc, &publisher, 4) else { return None; };`
    pub fn loan_slice_uninit(
        &mut self,
        alloc: Global,
        publisher: &Named<slice::Publisher<T, U>>,
        len: usize,
    ) -> Option<Result<Named<slice::SampleMutUninit<T, U>>, LoanError>>
        requires { option_map (λ made. made.port) (value_at self.old.calls.made.publishers publisher.now.number.value)
            ≡ Some publisher.now.it.port }
        ensures lent { self.new.calls ≡ answered_as result (command.LoanUninit publisher.now.number.value len)
            (λ loan. reply.LoanMade self.old.calls.made.loans.next) refusal.Loan
            (λ loan calls. record calls {
              made = record calls.made { loans = inserted calls.made.loans (record { port = loan.it.port; slot = loan.it.slot }) };
            }) self.old.calls }
        ensures others { KeepNumbers self.old.calls.made.loans self.new.calls.made.loans }
        ensures number { IfSome result (λ answer. IfOk answer (λ loan. (loan.number.value ≡ self.old.calls.made.loans.next)
            × (value_at self.new.calls.made.loans loan.number.value ≡ Some (record { port = loan.it.port; slot = loan.it.slot })))) }
        ensures lends { IfSome result (λ answer. IfOk answer (λ loan. (loan.it.port ≡ publisher.now.it.port) × (loan.it.state.len ≡ len))) }
    {
        typed_calls_are_a_run::<T, U, B, D>();
        typed_publisher_calls_are_steps::<T, U, Slice, B, D>();
        let number = Number::given(&self.history);
        let answer = lend_uninit_if(&mut self.hub, alloc, &publisher.it, len);
        self.history = told_lent(&self.history, &publisher.number, &answer, len);
        calls::with_number(answer, number)
    }

    /// Loans this many values from a publisher, each written with a default value: the command `Loan`. None, and the command is skipped, if
    /// the publisher isn't open, or a send of it is blocked. Other loans keep their numbers.
    ///
    /// Refused as the machine refuses it.
    /// Example: `let Some(Ok(sample)) = hub.loan_slice(alloc, &publisher, 4) else { return None; };`
    pub fn loan_slice(
        &mut self,
        alloc: Global,
        publisher: &Named<slice::Publisher<T, U>>,
        len: usize,
    ) -> Option<Result<Named<slice::SampleMut<T, U>>, LoanError>>
        requires { option_map (λ made. made.port) (value_at self.old.calls.made.publishers publisher.now.number.value)
            ≡ Some publisher.now.it.port }
        ensures lent { self.new.calls ≡ answered_as result (command.Loan publisher.now.number.value len)
            (λ loan. reply.LoanMade self.old.calls.made.loans.next) refusal.Loan
            (λ loan calls. record calls {
              made = record calls.made { loans = inserted calls.made.loans (record { port = loan.it.port; slot = loan.it.slot }) };
            }) self.old.calls }
        ensures others { KeepNumbers self.old.calls.made.loans self.new.calls.made.loans }
        ensures number { IfSome result (λ answer. IfOk answer (λ loan. (loan.number.value ≡ self.old.calls.made.loans.next)
            × (value_at self.new.calls.made.loans loan.number.value ≡ Some (record { port = loan.it.port; slot = loan.it.slot })))) }
        ensures lends { IfSome result (λ answer. IfOk answer (λ loan. loan.it.port ≡ publisher.now.it.port)) }
    {
        typed_calls_are_a_run::<T, U, B, D>();
        typed_publisher_calls_are_steps::<T, U, Slice, B, D>();
        let number = Number::given(&self.history);
        let answer = lend_if(&mut self.hub, alloc, &publisher.it, len);
        self.history = told_lent(&self.history, &publisher.number, &answer, len);
        calls::with_number(answer, number)
    }

    /// Writes all values of a loan: the command `Fill`. There must be as many as were loaned. Returns the loan, and whether it is written;
    /// if it isn't, the command is skipped.
    /// Example: `let (sample, is_written) = hub.write_from_slice(loan, &[7, 8]);`
    pub fn write_from_slice(
        &mut self,
        loan: Named<slice::SampleMutUninit<T, U>>,
        values: &[T],
    ) -> (Named<slice::SampleMut<T, U>>, bool)
        requires made { value_at self.old.calls.made.loans loan.number.value
            ≡ Some (record { port = loan.it.port; slot = loan.it.slot }) }
        requires long { length values.now ≡ loan.it.state.len }
        ensures written { self.new.calls ≡ asked_too (command.Fill loan.number.value values.now)
            (if result.1 then reply.Done else reply.Skipped) self.old.calls }
        ensures same { (result.0.number ≡ loan.number) × (result.0.it.port ≡ loan.it.port) × (result.0.it.slot ≡ loan.it.slot) }
    {
        typed_calls_are_a_run::<T, U, B, D>();
        typed_publisher_calls_are_steps::<T, U, Slice, B, D>();
        let Named { it, number } = loan;
        let (sample, filled) = write_all(&mut self.hub, it, values);
        self.history = told_filled(&self.history, &number, filled, values);
        (Named { it: sample, number }, filled)
    }

    /// Writes one value of a written loan, at a place counted from 0: the command `Set`. Returns whether it is written. If some value of
    /// the loan isn't written, or the loan has no such place, the command is skipped.
    /// Example: `let is_set = hub.set(&sample, 0, 7);`
    pub fn set(&mut self, sample: &Named<slice::SampleMut<T, U>>, place: usize, value: T) -> bool
        requires { value_at self.old.calls.made.loans sample.now.number.value
            ≡ Some (record { port = sample.now.it.port; slot = sample.now.it.slot }) }
        ensures { self.new.calls ≡ asked_too (command.Set sample.now.number.value place value)
            (if result then reply.Done else reply.Skipped) self.old.calls }
    {
        typed_calls_are_a_run::<T, U, B, D>();
        typed_publisher_calls_are_steps::<T, U, Slice, B, D>();
        let done = set_if(&mut self.hub, &sample.it, place, value);
        self.history = History::told(&self.history, &sample.number, &done, &(place, value));
        done
    }

    /// Drops a loan: the command `Drop`. The command is recorded as done, and its number names nothing any longer.
    /// Example: `hub.drop_loan(loan);`
    pub fn drop_loan<S: LoanState<T, U, Slice> + Copy>(&mut self, loan: Named<Loan<T, U, Slice, S>>)
        requires { value_at self.old.calls.made.loans loan.number.value ≡ Some (record { port = loan.it.port; slot = loan.it.slot }) }
        ensures { self.new.calls ≡ record (asked_too (command.Drop loan.number.value) reply.Done self.old.calls) {
          made = record self.old.calls.made { loans = removed self.old.calls.made.loans loan.number.value };
        } }
    {
        typed_calls_are_a_run::<T, U, B, D>();
        typed_publisher_calls_are_steps::<T, U, Slice, B, D>();
        let Named { it, number } = loan;
        calls::drop_loan_if(&mut self.hub, it);
        self.history = History::told(&self.history, &number, &(), &());
    }

    /// Sends a loan: the command `Send`. Its number names nothing any longer, even if the send is blocked or refused. The loan is handed
    /// back, and the command is skipped, if some value isn't written, or a send of its publisher is blocked.
    ///
    /// Refused as the machine refuses it.
    /// Example: `let sent = hub.send(alloc, sample).ok()?;`
    pub fn send(
        &mut self,
        alloc: Global,
        sample: Named<slice::SampleMut<T, U>>,
    ) -> Result<Result<Sent<T, U>, SendError>, Named<slice::SampleMut<T, U>>>
        requires { value_at self.old.calls.made.loans sample.number.value
            ≡ Some (record { port = sample.it.port; slot = sample.it.slot }) }
        ensures sent { MatchResult result
            (λ answer. self.new.calls ≡ record (asked_too (command.Send sample.number.value) (told_send (Some answer)) self.old.calls) {
              made = record self.old.calls.made { loans = removed self.old.calls.made.loans sample.number.value };
            })
            (λ back. self.new.calls ≡ asked_too (command.Send sample.number.value) reply.Skipped self.old.calls) }
        ensures back { IfErr result (λ back. back ≡ sample) }
        ensures waits { IfOk result (λ answer. IfOk answer (λ came. elim came [
          | sent.Delivered count ↦ Unit {0}
          | sent.Blocked blocked ↦ blocked.port ≡ sample.it.port
        ])) }
    {
        typed_calls_are_a_run::<T, U, B, D>();
        typed_publisher_calls_are_steps::<T, U, Slice, B, D>();
        let Named { it, number } = sample;
        let answer = send_if(&mut self.hub, alloc, it);
        let came = calls::sent_came(&answer);
        let gone = calls::has_left(&answer);
        self.history = History::told(&self.history, &number, &came, &gone);
        calls::back_with_number(answer, number)
    }
}

// Loans this many values from a publisher, to be written, if it may loan.
fn lend_uninit_if<T: Copy, U: Copy, H: Home<T, U>>(
    home: &mut H,
    alloc: Global,
    publisher: &slice::Publisher<T, U>,
    len: usize,
) -> Option<Result<slice::SampleMutUninit<T, U>, LoanError>>
    ensures { IsDoneIf (may_lend (homes.ports_of H.domain_of) publisher.now.port home.old)
        (LendsSlice (homes.ports_of H.domain_of) (homes.with_ports H.changed) publisher.now.port len) home.old result home.new }
{
    if !publisher.holds(home) {
        return None;
    }
    if publisher.is_blocked(home) {
        return None;
    }
    Some(publisher.loan_slice_uninit(alloc, home, len))
}

// Loans this many default values from a publisher, if it may loan.
fn lend_if<T: Copy + Default, U: Copy, H: Home<T, U>>(
    home: &mut H,
    alloc: Global,
    publisher: &slice::Publisher<T, U>,
    len: usize,
) -> Option<Result<slice::SampleMut<T, U>, LoanError>>
    ensures lends { IsDoneIf (may_lend (homes.ports_of H.domain_of) publisher.now.port home.old)
        (LendsDefaults (homes.ports_of H.domain_of) (homes.with_ports H.changed) T.is_default publisher.now.port len)
        home.old result home.new }
    ensures default { (value : T) × T.is_default value }
{
    let _value = T::default();
    if !publisher.holds(home) {
        return None;
    }
    if publisher.is_blocked(home) {
        return None;
    }
    Some(publisher.loan_slice(alloc, home, len))
}

// Writes all values of a loan, if the loan has as many; returns whether it did.
fn write_all<T: Copy, U: Copy, H: Home<T, U>>(
    home: &mut H,
    loan: slice::SampleMutUninit<T, U>,
    values: &[T],
) -> (slice::SampleMut<T, U>, bool)
    requires { length values.now ≡ loan.state.len }
    ensures writes { WritesAll (homes.ports_of H.domain_of) (homes.with_ports H.changed) loan.port loan.slot values.now home.old home.new }
    ensures same { result.0 ≡ sample_mut_of loan.port loan.slot }
    ensures told { result.1 ≡ is_written_with (loan_found loan.port.number loan.slot
        (homes.ports_of H.domain_of loan.port.domain home.new)) (length values.now) }
{
    let sample = loan.write_from_slice(home, values);
    let filled = is_written_with(&sample, home, values.len());
    (sample, filled)
}

// Writes one value of a written loan, at a place that it has; returns whether it did.
fn set_if<T: Copy, U: Copy, H: Home<T, U>>(
    home: &mut H,
    sample: &slice::SampleMut<T, U>,
    place: usize,
    value: T,
) -> bool
    ensures answer { result ≡ is_set place (loan_found sample.now.port.number sample.now.slot
        (homes.ports_of H.domain_of sample.now.port.domain home.old)) }
    ensures home { home.new ≡ (if result then loan_changed (homes.ports_of H.domain_of) (homes.with_ports H.changed) sample.now.port
        sample.now.slot (write_value place value) home.old else home.old) }
{
    if !sample.holds(home) {
        return false;
    }
    let Some(at) = slice::SampleMut::value_mut(home, sample, place) else {
        return false;
    };
    *at = value;
    true
}

// Whether a loan is written, with this many values.
fn is_written_with<T: Copy, U: Copy, H: Home<T, U>>(
    sample: &slice::SampleMut<T, U>,
    home: &H,
    count: usize,
) -> bool
    ensures { result ≡ is_written_with (loan_found sample.now.port.number sample.now.slot
        (homes.ports_of H.domain_of sample.now.port.domain home.now)) count }
{
    sample.holds(home) && sample.payload(home).len() == count
}

// The history that its caller states, if a publisher with this number was asked for a loan of this many values.
fn told_lent<T: Words + ZeroCopySend + Default, U: Copy + ZeroCopySend + Default, S>(
    history: &History<T>,
    number: &Number,
    _answer: &Option<Result<Loan<T, U, Slice, S>, LoanError>>,
    _len: usize,
) -> History<T>
    ghost calls: { Calls T }
    ensures { result.calls ≡ calls }
{
    History::told(history, number, &(), &())
}

// The history, if a loan with this number was to be filled with these values.
fn told_filled<T: Words + ZeroCopySend + Default>(
    history: &History<T>,
    number: &Number,
    filled: bool,
    values: &[T],
) -> History<T>
    ghost given: { List T }
    requires { values.now ≡ given }
    ensures { result.calls ≡ asked_too (command.Fill number.now.value values.now) (done_reply filled) history.now.calls }
{
    let _values = values;
    History::told(history, number, &filled, &())
}

// Sends a loan if it is written, and no send of its publisher is blocked; otherwise hands it back.
fn send_if<T: Copy, U: Copy, H: Home<T, U>>(
    home: &mut H,
    alloc: Global,
    sample: slice::SampleMut<T, U>,
) -> Result<Result<Sent<T, U>, SendError>, slice::SampleMut<T, U>>
    ensures { MatchResult result
        (λ answer. SendsSample (homes.ports_of H.domain_of) (homes.with_ports H.changed)
        (homes.publisher_degrades (λ kept. H.ForPublishers.degrades kept) H.domain_of)
        (homes.publisher_decides (λ kept. H.ForPublishers.decides kept) H.domain_of) sample.port sample.slot home.old answer home.new)
        (λ back. (back ≡ sample) × (home.new ≡ home.old)
        × (may_send (homes.ports_of H.domain_of) sample.port sample.slot home.old ≡ false)) }
{
    if !sample.holds(home) {
        return Err(sample);
    }
    if sample.is_blocked(home) {
        return Err(sample);
    }
    Ok(sample.send(alloc, home))
}
