// Submitting a job and cancelling it. The state goes in by value and comes back by value; any state that a caller hands in is served.
// Definitions and contracts are scheduler/specs/Scheduler.antt and Promises.antt.
#![tactic(auto)]

ghost use Rattle.std.specs.Prelude.{◌≡◌, ◌≤◌, ◌<◌, MatchResult};
ghost use Rattle.answers.specs.Answers.{acceptance};
ghost use Rattle.answers.specs.Refusals.{number_of};
ghost use Rattle.scheduler.specs.Scheduler.{vacant, empty, is_waiting, refusal, submission, cancellation};
ghost use Rattle.scheduler.specs.Promises.{Submits, Cancels};
ghost use Rattle.scheduler_change.specs.Changes.{Changes};

use answers::Answer;
use answers::refusals::Refusal;
use scheduler::{Changed, Job, SEATS, Scheduler, Slot};

// Nothing stands at the seat.
pub fn vacant() -> Slot
    ensures { result ≡ vacant }
{
    Slot::default()
}

// No job waits, and seat 0 is looked at first.
pub fn empty() -> Scheduler
    ensures { result ≡ empty }
{
    Scheduler {
        slots: [vacant(); SEATS],
        first: 0,
    }
}

// Whether a job waits at a seat.
#[tactic(auto, unfolding(scheduler::specs::Scheduler::is_waiting))]
fn is_waiting(s: &Scheduler, seat: usize) -> Result<bool, Refusal>
    ensures { MatchResult result (λ waiting. (seat < 8) × (waiting ≡ is_waiting s.now seat)) (λ r. (8 ≤ seat) × (r ≡ Refusal.NoSuchSeat)) }
{
    let Some(slot) = s.slots.get(seat) else {
        return Err(Refusal::NoSuchSeat);
    };
    Ok(slot.waiting != 0)
}

fn occupy(s: &mut Scheduler, seat: usize, job: Job) -> Result<(), Refusal>
    ensures { Changes s.old s.new (submission s.old seat job) result }
{
    if is_waiting(s, seat)? {
        return Err(Refusal::SeatTaken);
    }
    s.slots[seat] = Slot { waiting: 1, job };
    Ok(())
}

fn vacate(s: &mut Scheduler, seat: usize) -> Result<(), Refusal>
    ensures { Changes s.old s.new (cancellation s.old seat) result }
{
    if !is_waiting(s, seat)? {
        return Err(Refusal::SeatEmpty);
    }
    s.slots[seat] = vacant();
    Ok(())
}

fn answer(change: Result<(), Refusal>) -> Answer
    ensures { MatchResult change (λ _. result ≡ acceptance) (λ r. result ≡ refusal (number_of r)) }
{
    match change {
        Ok(()) => answers::acceptance(),
        Err(refusal) => answers::by_name::refusal(refusal, 4, 0),
    }
}

// A job for a seat. 29, 30.
pub fn submit(s: Scheduler, seat: usize, job: Job) -> Changed
    ensures { Submits s seat job result }
{
    let mut scheduler = s;
    let change = occupy(&mut scheduler, seat, job);
    Changed {
        scheduler,
        answer: answer(change),
    }
}

// The seat's job is taken back. 29, 31.
pub fn cancel(s: Scheduler, seat: usize) -> Changed
    ensures { Cancels s seat result }
{
    let mut scheduler = s;
    let change = vacate(&mut scheduler, seat);
    Changed {
        scheduler,
        answer: answer(change),
    }
}
