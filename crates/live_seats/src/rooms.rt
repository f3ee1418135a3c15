//! All memory that a run takes, but for its threads.

ghost use Rattle.std.specs.Prelude.{◌≡◌, ◌+◌, ◌^◌, ◌<◌, vec_len, IfOk};
ghost use Rattle.live_seats.specs.Rooms.{HasRooms};

use crate::here::HereSeat;
use crate::seat::AnySeat;
use crate::seating::{Place, Seating};
use live_table::CpuSeat;
use std::alloc::{AllocError, Global};
use std::sync::atomic::AtomicBool;

/// Lists that are empty, with room for seats of one table.
#[derive(Drop)]
pub struct Rooms {
    /// For each seat whether no thread could be started for it.
    pub flags: Vec<AtomicBool>,
    /// For the seats that are to be launched.
    pub seats: Vec<AnySeat>,
    /// For where they are then.
    pub seating: Seating,
    /// For the seats at their ends.
    pub ended: Vec<AnySeat>,
    /// For those of the CPUs.
    pub cpus: Vec<CpuSeat>,
}

/// So many flags, none of which is set. The error says that memory ran out.
pub fn make_flags(alloc: Global, count: usize) -> Result<Vec<AtomicBool>, AllocError>
    ensures { IfOk result (λ v. vec_len v ≡ count) }
{
    let mut flags = Vec::with_capacity(alloc, count)?;
    for made in 0..count {
        flags.push_reserved(AtomicBool::new(false));
    }
    Ok(flags)
}

/// Room for control's seat and so many of CPUs. The error says that memory ran out.
pub fn make_rooms(alloc: Global, cpus: usize) -> Result<Rooms, AllocError>
    requires { cpus + 1 < 2 ^ 64 }
    ensures { IfOk result (λ r. HasRooms r cpus) }
{
    let all = cpus + 1;
    let flags = make_flags(alloc, all)?;
    let seats = Vec::with_capacity(alloc, all)?;
    let places = Vec::with_capacity(alloc, all)?;
    let here = Vec::with_capacity(alloc, all)?;
    let ended = Vec::with_capacity(alloc, all)?;
    let cpus = Vec::with_capacity(alloc, cpus)?;
    Ok(Rooms {
        flags,
        seats,
        seating: Seating { places, here },
        ended,
        cpus,
    })
}
