//! The data with which the responses of a session are made.

ghost use Rattle.std.specs.Prelude.{◌≡◌, ◌<◌, ◌≤◌, ◌^◌, IfOk};
ghost use Rattle.std.specs.Option.{ForSome};
ghost use Rattle.rx_shared.specs.State.{store_of};
ghost use Rattle.rec_serve.specs.Inner.Banks.{IsEmptied, IsUnrooted};

use crate::settings::Session;
use rx_shared::SharedBank;
use rx_term::TermBank;
use std::alloc::{AllocError, Global};

/// The number of bytes of requests after which the store is replaced.
const MOST_BYTES: usize = 65_536;

/// A session, and a store in which its requests are read. The store has no terms of earlier
/// requests while a request is read. A new store replaces it after some bytes, so that names of
/// requests are not kept forever.
#[derive(Drop)]
pub(crate) struct Workspace {
    /// The allocator and the settings.
    pub(crate) session: Session,
    /// The store in which the last request was read.
    bank: Option<Box<SharedBank>>,
    /// The number of bytes that were read in this store.
    bytes: usize,
    ghost unrooted: { ForSome bank (λ b. IsUnrooted (store_of b.value)) },
    ghost limit: { ForSome bank (λ b. (store_of b.value).cap ≡ session.settings.options.cells) },
}

impl Workspace {
    ghost use Rattle.std.specs.Prelude.{None, Some};

    /// Makes a workspace without a store.
    pub(crate) fn new(session: Session) -> Workspace
        ensures { result.session ≡ session }
    {
        Workspace {
            session,
            bank: None,
            bytes: 0,
        }
    }

    /// Drops the store if enough bytes were read in it.
    pub(crate) fn renew(&mut self)
        ensures { self.new.session ≡ self.old.session }
    {
        if self.bytes > MOST_BYTES {
            self.bank = None;
            self.bytes = 0;
        }
    }

    /// Returns a store without terms, with the capacity of the settings, for a request of `bytes`
    /// bytes.
    pub(crate) fn take_bank(&mut self, bytes: usize) -> Result<Box<SharedBank>, AllocError>
        ensures empty { IfOk result
            (λ b. IsEmptied (store_of b.value) self.old.session.settings.options.cells) }
        ensures same { self.new.session ≡ self.old.session }
    {
        self.bytes = self.bytes.saturating_add(bytes);
        match self.bank.take() {
            Some(mut bank) => {
                bank.reclaim(&[]);
                Ok(bank)
            }
            None => new_bank(self.session.alloc, self.session.settings.options.cells),
        }
    }

    /// Takes the store of a request back, for the next one.
    pub(crate) fn give_back(&mut self, bank: Box<SharedBank>)
        requires unrooted { IsUnrooted (store_of bank.value) }
        requires limit { (store_of bank.value).cap ≡ self.old.session.settings.options.cells }
        ensures held { self.new.bank ≡ Some bank }
        ensures same { self.new.session ≡ self.old.session }
    {
        self.bank = Some(bank);
    }
}

/// Makes an empty store with a capacity of `cells` cells.
fn new_bank(alloc: Global, cells: u32) -> Result<Box<SharedBank>, AllocError>
    requires { (0 < cells) × (cells ≤ 2 ^ 30) }
    ensures { IfOk result (λ b. IsEmptied (store_of b.value) cells) }
{
    match SharedBank::new(alloc, cells) {
        Ok(bank) => match Box::new(alloc, bank) {
            Ok(bank) => Ok(bank),
            Err(_) => Err(AllocError),
        },
        Err(_) => Err(AllocError),
    }
}
