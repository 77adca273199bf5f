//! How many connections there are from each address.
ghost use Rattle.std.specs.Prelude.{◌≡◌, ◌<◌, ◌≤◌, ◌∷◌, ◌++◌, [], IfOk};
ghost use Rattle.std.specs.Bool.{OnTrue, OnFalse};
ghost use Rattle.std.specs.Result.{OnErr};
ghost use Rattle.sws_net.specs.Guests.{count_of};

use std::alloc::{AllocError, Global};
use std::hint;
use std::net::IpAddr;
use std::sync::atomic::{AtomicU64, Ordering};
use std::sync::{Arc, Mutex};

/// In how many lists the addresses are kept, by their last bits.
const LISTS: usize = 1024;

/// How often a list is asked for that somebody else has at the time, which nobody keeps for long.
const TRIES: u32 = 10_000_000;

/// The connections of each address, of which so many may be there at a time. An IPv6 address that
/// stands for one of IPv4 counts as that one.
#[derive(Drop)]
pub struct Guests {
    most: usize,

    /// The addresses of which any number may be there, as of fronts behind which many clients are.
    fronts: Vec<u128>,

    /// The addresses of those that are there, each as often as it is.
    lists: Vec<Mutex<Vec<u128>>>,

    /// How many weren't let in.
    refused: AtomicU64,
}

/// How often this address stands in a list.
fn count(here: &[u128], address: u128) -> usize
    ensures { result ≡ count_of address here.now }
{
    let mut count = 0;
    'guests: for guest in here {
        if *guest == address {
            count += 1;
        }
    }
    count
}

/// Lets one more of this address in, unless as many are there as may be, and answers whether it did.
fn let_in(here: &mut Vec<u128>, address: u128, most: usize) -> Result<bool, AllocError>
    ensures entered { IfOk result (λ is_in. OnTrue is_in
        (here.new.items ≡ here.old.items ++ address ∷ [])) }
    ensures few { IfOk result (λ is_in. OnTrue is_in (count_of address here.old.items < most)) }
    ensures refused { IfOk result (λ is_in. OnFalse is_in
        (most ≤ count_of address here.old.items)) }
    ensures same { IfOk result (λ is_in. OnFalse is_in (here.new.items ≡ here.old.items)) }
    ensures err { OnErr result (here.new.items ≡ here.old.items) }
{
    if count(here, address) >= most {
        return Ok(false);
    }
    here.push(address)?;
    Ok(true)
}

/// Takes one of this address off.
fn let_out(here: &mut Vec<u128>, address: u128) {
    if let Some(place) = here.iter().position(|guest| *guest == address) {
        here.remove(place);
    }
}

/// An address as a number.
pub fn number_of(address: IpAddr) -> u128 {
    match address {
        IpAddr::V4(v4) => v4.to_ipv6_mapped().to_bits(),
        IpAddr::V6(v6) => v6.to_bits(),
    }
}

impl Guests {
    /// Nobody is there; of each address so many may be, and of fronts any number.
    pub fn new(alloc: Global, most: u32, fronts: &[IpAddr]) -> Result<Guests, AllocError> {
        let mut numbers = Vec::new(alloc);
        for front in fronts {
            numbers.push(number_of(*front))?;
        }
        let mut lists = Vec::with_capacity(alloc, LISTS)?;
        for _ in 0..LISTS {
            lists.push(Mutex::new(Vec::new(alloc)))?;
        }
        Ok(Guests {
            most: most as usize,
            fronts: numbers,
            lists,
            refused: AtomicU64::new(0),
        })
    }

    /// How many weren't let in.
    pub fn refused(&self) -> u64 {
        self.refused.load(Ordering::SeqCst)
    }

    /// The list of an address.
    fn list(&self, address: u128) -> Option<&Mutex<Vec<u128>>> {
        self.lists.get((address % LISTS as u128) as usize)
    }

    /// Lets one more of this address in, where it may be: whether it did. Not where there is no memory.
    fn enter(&self, address: u128) -> bool {
        let Some(list) = self.list(address) else {
            return false;
        };
        for _ in 0..TRIES {
            if let Some(mut here) = list.try_lock() {
                return matches!(let_in(&mut here, address, self.most), Ok(true));
            }
            hint::spin_loop();
        }
        false
    }

    /// One of this address has gone.
    fn leave(&self, address: u128) {
        let Some(list) = self.list(address) else {
            return;
        };
        for _ in 0..TRIES {
            if let Some(mut here) = list.try_lock() {
                let_out(&mut here, address);
                return;
            }
            hint::spin_loop();
        }
    }
}

/// That a connection was let in. Where this is dropped, it has gone.
pub struct Guest {
    guests: Arc<Guests>,

    /// Its address, where it counts.
    address: Option<u128>,
}

impl Guest {
    /// A connection of this address, where one more may come in.
    pub fn of(guests: &Arc<Guests>, address: IpAddr) -> Option<Guest> {
        let number = number_of(address);
        let counts = !guests.fronts.contains(&number);
        let Ok(all) = Arc::try_clone(guests) else {
            return None;
        };
        if counts && !guests.enter(number) {
            guests.refused.fetch_add(1, Ordering::SeqCst);
            return None;
        }
        Some(Guest {
            guests: all,
            address: counts.then_some(number),
        })
    }
}

impl Drop for Guest {
    fn drop(self) {
        let Guest { guests, address } = self;
        if let Some(address) = address {
            guests.leave(address);
        }
    }
}
