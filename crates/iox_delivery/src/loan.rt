//! Loans as values.
ghost use Rattle.iox_domain.specs.Homes as homes;
ghost use Rattle.std.specs.Prelude.{◌≡◌, Bool, Option, true, Some, is_some, option_map};
ghost use Rattle.std.specs.Borrow.{sem, LendsIf};
ghost use Rattle.std.specs.Option.{option_copied_mut};
ghost use Rattle.iox_domain.specs.DomainPorts.Messages.{Loan as Lent, write_user_header};
ghost use Rattle.iox_delivery.specs.Holding.{loan_found, left_or_given_back};
ghost use Rattle.iox_delivery.specs.Publishing.{loan_changed, loan_header_found, WritesUserHeader, GivesUpLoan};

use crate::kind::Kind;
use crate::lending;
use crate::port_id::PortId;
use iox_describe_base::Header;
use iox_domain::Home;
use std::marker::PhantomData;

/// The state of a loan: not written yet, or written.
pub trait LoanState<T, U, K> {
    // Whether the loan is in this state.
    ghost is_held: { Option (Lent T U) → Bool };

    /// Whether the publisher has a loan in this slot, in this state.
    ///
    /// Not in `iceoryx2`.
    /// Example: `let is_there = S::is_held_in(port, slot, home);`
    fn is_held_in<H: Home<T, U>>(port: PortId, slot: usize, home: &H) -> bool
        ensures { result ≡ is_held (loan_found port.number slot (homes.ports_of H.domain_of port.domain home.now)) };

    // A loan in this state exists.
    ghost held_is_loan: { (loan : Option (Lent T U)) → is_held loan ≡ true → is_some loan ≡ true };
}

/// The state of a loan that isn't written yet, and has `len` values.
#[derive(Clone, Copy)]
pub struct Uninit {
    pub(crate) len: usize,
}

/// The state of a loan that is written, so that it may be sent.
#[derive(Clone, Copy)]
pub struct Written;

impl<T: Copy, U: Copy, K> LoanState<T, U, K> for Uninit {
    ghost is_held = { λ loan. is_some loan };

    fn is_held_in<H: Home<T, U>>(port: PortId, slot: usize, home: &H) -> bool {
        lending::is_out(port, slot, home)
    }

    ghost held_is_loan = { λ loan held. held };
}

impl<T: Copy, U: Copy, K: Kind<T, U>> LoanState<T, U, K> for Written {
    ghost is_held = { λ loan. K.is_ready loan };

    fn is_held_in<H: Home<T, U>>(port: PortId, slot: usize, home: &H) -> bool {
        K::is_ready_in(port, slot, home)
    }

    ghost held_is_loan = { λ loan held. K.ready_is_loan loan held };
}

/// A loan of a publisher in a slot as a value, for payloads of one kind, in one state.
pub struct Loan<T, U, K, S> {
    pub(crate) port: PortId,
    pub(crate) slot: usize,
    pub(crate) state: S,
    pub(crate) of: PhantomData<(T, U, K)>,
}

impl<T: Copy, U: Copy, K, S: LoanState<T, U, K> + Copy> Loan<T, U, K, S> {
    /// Whether the loan exists in this home, and is written if its state says so, which its calls require.
    /// Example: `let is_there = loan.holds(home);`
    pub fn holds<H: Home<T, U>>(&self, home: &H) -> bool
        ensures { result ≡ S.is_held (loan_found self.now.port.number self.now.slot
            (homes.ports_of H.domain_of self.now.port.domain home.now)) }
    {
        S::is_held_in(self.port, self.slot, home)
    }

    /// What the loan's header says: the node and the publisher that will send it, and how many elements it has. It has no
    /// sequence number yet: its send gives it one.
    ///
    /// Ported from `iceoryx2::sample_mut_uninit::SampleMutUninit::header` and `iceoryx2::sample_mut::SampleMut::header`.
    /// Example: `let header = loan.header(home);`
    pub fn header<H: Home<T, U>>(&self, home: &H) -> Header
        requires { S.is_held (loan_found self.now.port.number self.now.slot (homes.ports_of H.domain_of self.now.port.domain home.now))
            ≡ true }
        ensures { Some result ≡ loan_header_found self.now.port.number self.now.slot
            (homes.ports_of H.domain_of self.now.port.domain home.now) }
    {
        lending::header(self.port, self.slot, home)
    }

    /// The user header.
    ///
    /// Ported from `iceoryx2::sample_mut_uninit::SampleMutUninit::user_header` and `iceoryx2::sample_mut::SampleMut::user_header`.
    /// Example: `let stamp = *loan.user_header(home);`
    pub fn user_header<'a, H: Home<T, U>>(&self, home: &'a H) -> &'a U
    where
        T: 'a,
        U: 'a,
        requires { S.is_held (loan_found self.now.port.number self.now.slot (homes.ports_of H.domain_of self.now.port.domain home.now))
            ≡ true }
        ensures { Some result.now ≡ option_map (λ loan. loan.user_header)
            (loan_found self.now.port.number self.now.slot (homes.ports_of H.domain_of self.now.port.domain home.now)) }
    {
        lending::user_header(self.port, self.slot, home)
    }

    /// A mutable reference to the user header; None if the loan doesn't exist in this home.
    ///
    /// Ported from `user_header_mut` of `iceoryx2::sample_mut_uninit::SampleMutUninit` and `iceoryx2::sample_mut::SampleMut`.
    /// Example: `let stamp = SampleMutUninit::user_header_mut(home, &loan)?;`
    pub fn user_header_mut<'a, H: Home<T, U>>(home: &'a mut H, sample: &Self) -> Option<&'a mut U>
    where
        T: 'a,
        U: 'a,
        ensures* writes_back { sem 𝓛 (LendsIf H.row U.row home.entry result
            (λ last. loan_changed (homes.ports_of H.domain_of) (homes.with_ports H.changed) sample.now.port sample.now.slot
            (write_user_header last) home.old) home.old) }
        ensures value { option_copied_mut result
            ≡ option_map (λ loan. loan.user_header)
            (loan_found sample.now.port.number sample.now.slot (homes.ports_of H.domain_of sample.now.port.domain home.old)) }
    {
        lending::user_header_mut(home, sample.port, sample.slot)
    }

    /// Writes the user header, if the loan exists in this home.
    ///
    /// Ported from writing through what `user_header_mut` returns there.
    /// Example: `loan.user_header_write(home, 150);`
    pub fn user_header_write<H: Home<T, U>>(&mut self, home: &mut H, user_header: U)
        ensures writes { WritesUserHeader (homes.ports_of H.domain_of) (homes.with_ports H.changed) self.old.port self.old.slot
            user_header home.old home.new }
        ensures same { self.new ≡ self.old }
    {
        lending::write_user_header(self.port, self.slot, home, user_header);
    }

    /// The slot of the loan. The loan stays with its publisher: nothing can send or drop it any longer, and its slot stays in use.
    ///
    /// Not in `iceoryx2`.
    /// Example: `let slot = loan.into_slot();`
    pub fn into_slot(self) -> usize
        ensures { result ≡ self.slot }
    {
        let Loan {
            port: _,
            slot,
            state: _,
            of: _,
        } = self;
        slot
    }

    /// Drops the loan, if it exists in this home. Otherwise nothing happens, and the loan is returned, so that it can be dropped in
    /// its own home, or forgotten by `into_slot`.
    ///
    /// Ported from dropping an `iceoryx2::sample_mut_uninit::SampleMutUninit` or an `iceoryx2::sample_mut::SampleMut`.
    /// Example: `if let Err(kept) = loan.drop_with(home) { .. }`
    pub fn drop_with<H: Home<T, U>>(self, home: &mut H) -> Result<(), Self>
        ensures gives_up { GivesUpLoan (homes.ports_of H.domain_of) (homes.with_ports H.changed) self.port self.slot home.old home.new }
        ensures dropped { result ≡ left_or_given_back
            (is_some (loan_found self.port.number self.slot (homes.ports_of H.domain_of self.port.domain home.old))) self }
    {
        if lending::drop_loan(self.port, self.slot, home) {
            let _ = self.into_slot();
            Ok(())
        } else {
            Err(self)
        }
    }
}
