ghost use Rattle.std.specs.Prelude.{◌≡◌, ◌<◌, ◌≤◌, ◌&&◌, ℕ, Some, IfOk, IfSome, length, not, slice_get, nat_lt};
ghost use Rattle.std.specs.Option.{option_map};
ghost use Rattle.std.specs.FinSet as set;
ghost use Rattle.fx_base.specs.Sets.{IsBelow};
ghost use Rattle.fx_comm.specs.Seats.{IsComm, AllBelow32, first_seats, repaired, has_place, place_in};

use fx_base::{Ident, NoMemory, Place, Proc, ProcSet, Seats};
use std::alloc::Global;
use std::marker::Model;

/// A communicator: identities, each with the process that has it, in rising identity. A place is a position
/// in it, from 0.
#[derive(Debug, Drop)]
pub struct Comm {
    seats: Seats,
}

impl Model for Comm {
    ghost use Rattle.std.specs.Prelude.{List};
    ghost use Rattle.fx_comm.specs.Seats.{Seat, IsComm};

    ghost Value = { List Seat };

    ghost view = { λ c. c.seats };

    ghost invariant = { λ c. IsComm c.seats };
}

/// The communicator of the first epoch, of 1 to 32 ranks: identity i is at process i.
pub fn first(alloc: Global, ranks: u8) -> Result<Comm, NoMemory>
    requires some { 1 ≤ ranks }
    requires at_most_32 { ranks ≤ 32 }
    ensures { IfOk result (λ comm. comm ≡ first_seats ranks) }
{
    let mut seats = Seats::new(alloc);
    for number in 0..ranks {
        seats.push((Ident(number), Proc(number)))?;
    }
    Ok(Comm { seats })
}

/// The communicator after a repair. Processes of the old one that are present keep their identities; the lost
/// identities go in rising order to the present processes outside it, in rising order, while there are any.
pub fn repair(alloc: Global, old: &Comm, present: ProcSet) -> Result<Comm, NoMemory>
    requires { 0 < set.len present }
    ensures { IfOk result (λ comm. comm ≡ repaired old.now (set.contains present)) }
{
    let mut spares = spares_of(&old.seats, present);
    let mut seats = Seats::new(alloc);
    for seat in old.seats.as_slice() {
        if present.has(seat.1.0) {
            seats.push(*seat)?;
        } else if let Some(spare) = spares.least() {
            spares.remove(spare);
            seats.push((seat.0, Proc(spare)))?;
        }
    }
    Ok(Comm { seats })
}

impl Comm {
    /// The number of places, from 1 to 32.
    pub fn size(&self) -> u8
        ensures size { result ≡ length self.now }
        ensures comm { IsComm self.now }
    {
        self.seats.len() as u8
    }

    /// The seats in order of places: each identity, with the process that has it.
    pub fn seats(&self) -> &Seats
        ensures { result.now ≡ self.now }
    {
        &self.seats
    }

    /// The place of the process, if it has one. It is below the size, and the process is the one there.
    pub fn place_of(&self, proc: Proc) -> Option<Place>
        ensures place { option_map (λ place. place.0) result ≡ place_in self.now proc.0 }
        ensures below { IfSome result (λ place. place.0 < length self.now) }
        ensures there { IfSome result (λ place. option_map (λ seat. seat.1) (slice_get self.now place.0) ≡ Some proc) }
    {
        let mut place = 0;
        for seat in self.seats.as_slice() {
            if seat.1 == proc {
                return Some(Place(place));
            }
            place += 1;
        }
        None
    }

    /// The process at a place below the size. The place of that process is this one.
    pub fn proc_at(&self, place: Place) -> Proc
        requires { place.0 < length self.now }
        ensures there { option_map (λ seat. seat.1) (slice_get self.now place.0) ≡ Some result }
        ensures place { place_in self.now result.0 ≡ Some place.0 }
    {
        self.seats.as_slice()[usize::from(place.0)].1
    }

    /// The identity at a place below the size.
    pub fn ident_at(&self, place: Place) -> Ident
        requires { place.0 < length self.now }
        ensures { option_map (λ seat. seat.0) (slice_get self.now place.0) ≡ Some result }
    {
        self.seats.as_slice()[usize::from(place.0)].0
    }

    /// Whether there are fewer places than ranks.
    pub fn depleted(&self, ranks: u8) -> bool
        ensures { result ≡ nat_lt (length self.now) ranks }
    {
        self.seats.len() < usize::from(ranks)
    }

    /// An equal communicator.
    pub fn copy(&self) -> Result<Comm, NoMemory>
        ensures { IfOk result (λ copy. copy ≡ self.now) }
    {
        let seats = self.seats.copy()?;
        Ok(Comm { seats })
    }
}

/// The present processes that have no place. Each that is present is below 32.
fn spares_of(old: &Seats, present: ProcSet) -> ProcSet
    requires { AllBelow32 old.now }
    ensures spares { (proc : ℕ) → set.contains result proc ≡ (set.contains present proc && not (has_place old.now proc)) }
    ensures below { IsBelow 32 present }
{
    let mut placed = ProcSet::new();
    for seat in old.as_slice() {
        placed.insert(seat.1.0);
    }
    present.difference(placed)
}
