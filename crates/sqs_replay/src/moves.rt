//! Dead letters move on after a line that names their queue.

ghost use Rattle.std.specs.Prelude.{◌≡◌, ◌⊎◌, ℕ, false, IfErr, OnOk, None, Ok, Err};
ghost use Rattle.std.specs.Option.{ForSome};
ghost use Rattle.message.specs.declared.fault.Fault.TheVariants.{OutOfMemory};
ghost use Rattle.message.specs.Fault.{is_out_of_memory};
ghost use Rattle.queue_core.specs.Legal.{IsLegal};
ghost use Rattle.redrive.specs.House.{House, queue_of_uid, first_parcel_in, StandsAt};
ghost use Rattle.sqs_replay.specs.Moves.{goes_on, message_count_in, some_moves, all_moves, WasRefused};

use journal::{Moment, Ticks};
use message::Fault;
use redrive::{House, Moved, QueuePlace};
use std::alloc::Global;

/// Whether another parcel is tried after an answer. Lack of memory is told on.
fn goes_on(answer: Result<Moved, Fault>) -> Result<bool, Fault>
    ensures known { OnOk result (result ≡ Ok (goes_on answer)) }
    ensures memory { IfErr result (λ fault. (fault ≡ OutOfMemory) × (answer ≡ Err OutOfMemory)) }
    ensures told { OnOk result (is_out_of_memory answer ≡ false) }
{
    match answer {
        Ok(Moved::None) => Ok(false),
        Ok(_) => Ok(true),
        Err(Fault::OutOfMemory) => Err(Fault::OutOfMemory),
        Err(_) => Ok(false),
    }
}

/// Moves so many parcels at most of the queue of a uid, until none waits or a queue refuses.
fn some_moves(
    alloc: Global,
    house: &mut House,
    at: Moment,
    source: u64,
    most: u64,
    ticks: &mut Ticks,
) -> Result<(), Fault>
    ensures state { OnOk result (house.new ≡ some_moves most house.old source at) }
    ensures fault { IfErr result (λ fault. fault ≡ OutOfMemory) }
{
    for _done in 0..most {
        let answer = house.move_one(alloc, source, at, ticks);
        if !goes_on(answer)? {
            return Ok(());
        }
    }
    Ok(())
}

/// Moves every parcel of the queue that was found. Where none waits, as after nearly every line,
/// nothing else is asked.
pub(crate) fn move_dead_letters(
    alloc: Global,
    house: &mut House,
    at: Moment,
    found: QueuePlace,
    ticks: &mut Ticks,
) -> Result<(), Fault>
    requires { StandsAt house.old found }
    ensures state { OnOk result (house.new ≡ all_moves house.old found.uid at) }
    ensures fault { IfErr result (λ fault. fault ≡ OutOfMemory) }
{
    let queue = house.queue_at(found);
    if queue.first_waiting().is_none() {
        return Ok(());
    }
    let most = queue.message_count();
    some_moves(alloc, house, at, found.uid, most, ticks)
}

/// That as many moves are tried as the queue ever had messages is enough: after all of them no parcel
/// waits there, or one of them was refused, and it was the last. The queue's journal is one that a
/// queue can have, as each queue's is.
pub fn all_parcels_move()
    ensures { (w : House) (source at : ℕ)
        → ForSome (queue_of_uid w source) (λ q. IsLegal q)
        → (first_parcel_in (all_moves w source at) source ≡ None) ⊎ WasRefused w source at (all_moves w source at) }
{}
