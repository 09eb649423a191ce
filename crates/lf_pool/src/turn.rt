//! One turn.
ghost use Rattle.std.specs.Prelude.{◌≡◌};
ghost use Rattle.def_turns.specs.Turns.{entry_of, kind_of};
ghost use Rattle.def_turns.specs.declared.turned.Given.TheVariants.{Publishes};
ghost use Rattle.lf_desk.specs.Rotas.{IsOwn};
ghost use Rattle.lf_pool.specs.OneTurn.{IsGiven, IsTurn, KeepsPublished};

use def_turns::Turned;
use lf_base::{Memory, Steps};
use lf_desk::Rota;
use std::alloc::Global;
use std::sync::ledger::Ledger;

/// Takes a board, brings it to the version that it is to reach, and gives it back. `Idle` comes
/// only where no frame waits after the call. `Published` comes with its publication as the last
/// entry. Where no memory is found the board is given back all the same, and the answer is
/// `Published` where that published an older turn of it, else `Memory`; then nothing was published.
pub fn one_turn<R: Rota, L: Ledger>(
    alloc: Global,
    rota: &mut R,
    steps: &mut Steps<L>,
) -> Result<Turned, Memory>
    ensures turn { IsTurn (R.alone rota.old) (R.seat rota.old)
        (R.history rota.old) (R.history rota.new)
        (R.away rota.old) (R.away rota.new) (R.taken rota.old) (R.taken rota.new) result }
    ensures same_seat { R.seat rota.new ≡ R.seat rota.old }
    ensures same_alone { R.alone rota.new ≡ R.alone rota.old }
{
    match rota.take(alloc)? {
        Some(job) => turn_job(alloc, rota, job, steps),
        None => Ok(Turned::Idle),
    }
}

// Works on a job and gives it back.
fn turn_job<R: Rota, L: Ledger>(
    alloc: Global,
    rota: &mut R,
    job: R::Job,
    steps: &mut Steps<L>,
) -> Result<Turned, Memory>
    requires own { IsOwn (R.history rota.old) (R.meaning job) (R.told job) }
    ensures given { IsGiven (R.alone rota.old) (R.seat rota.old)
        (R.history rota.old) (R.history rota.new)
        (R.away rota.old) (R.away rota.new) (R.told job) result }
    ensures same_seat { R.seat rota.new ≡ R.seat rota.old }
    ensures same_alone { R.alone rota.new ≡ R.alone rota.old }
    ensures same_taken { R.taken rota.new ≡ R.taken rota.old }
{
    let mut job = job;
    match rota.work(alloc, &mut job, steps) {
        Ok(()) => rota.give(alloc, job),
        Err(Memory) => give_older(alloc, rota, job),
    }
}

// Gives a job back that found no memory to be worked on.
fn give_older<R: Rota>(alloc: Global, rota: &mut R, job: R::Job) -> Result<Turned, Memory>
    requires own { IsOwn (R.history rota.old) (R.meaning job) (R.told job) }
    ensures given { IsGiven (R.alone rota.old) (R.seat rota.old)
        (R.history rota.old) (R.history rota.new)
        (R.away rota.old) (R.away rota.new) (R.told job) result }
    ensures same_seat { R.seat rota.new ≡ R.seat rota.old }
    ensures same_alone { R.alone rota.new ≡ R.alone rota.old }
    ensures same_taken { R.taken rota.new ≡ R.taken rota.old }
{
    match rota.give(alloc, job) {
        Ok(given) => publication_or_memory(given),
        Err(Memory) => Err(Memory),
    }
}

// What a turn that found no memory answers: a publication alone.
fn publication_or_memory(given: Turned) -> Result<Turned, Memory>
    ensures { KeepsPublished given result }
{
    match given {
        Turned::Published { frame, version } => Ok(Turned::Published { frame, version }),
        Turned::Idle => Err(Memory),
        Turned::Home { .. } => Err(Memory),
        Turned::Superseded { .. } => Err(Memory),
    }
}
