//! Bells to sleep on, so that the end of a turn wakes the pass that is next and no other.
ghost use Rattle.std.specs.Prelude.{◌≡◌, vec_len, IfOk};

use std::alloc::{AllocError, Global};
use std::sync::Wait;
use std::sync::atomic::{AtomicU64, Ordering};

// Passes share a bell only where more of them wait.
const BELLS: u64 = 64;

// Sleeping compares these bits of a word alone.
const LOW_BITS: u64 = 0xffff_ffff;

/// How often each bell was rung. A ticket has the bell at its remainder.
#[derive(Drop)]
pub(crate) struct Bells {
    rung: Vec<AtomicU64>,
    ghost all_there: { vec_len rung ≡ 64 },
}

impl Bells {
    pub(crate) fn hang(alloc: Global) -> Result<Bells, AllocError> {
        Ok(Bells::of(silent(alloc)?))
    }

    fn of(rung: Vec<AtomicU64>) -> Bells
        requires { vec_len rung ≡ 64 }
    {
        Bells { rung }
    }

    fn bell(&self, ticket: u64) -> &AtomicU64 {
        &self.rung[(ticket % BELLS) as usize]
    }

    // How often the ticket's bell was rung so far.
    pub(crate) fn heard(&self, ticket: u64) -> u64 {
        self.bell(ticket).load(Ordering::SeqCst)
    }

    // Wakes the pass that has the ticket.
    pub(crate) fn ring(&self, ticket: u64) {
        let bell = self.bell(ticket);
        bell.fetch_add(1, Ordering::SeqCst);
        bell.wake_all();
    }

    // Sleeps if the ticket's bell was not rung since.
    pub(crate) fn sleep<R: Wait>(&self, rt: &R, ticket: u64, heard: u64) {
        self.bell(ticket).park(rt, (heard & LOW_BITS) as u32);
    }
}

fn silent(alloc: Global) -> Result<Vec<AtomicU64>, AllocError>
    ensures { IfOk result (λ v. vec_len v ≡ 64) }
{
    let mut rung = Vec::with_capacity(alloc, BELLS as usize)?;
    for made in 0..BELLS {
        rung.push(AtomicU64::new(0))?;
    }
    Ok(rung)
}
