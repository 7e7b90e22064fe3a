// What a turn of the scheduler does around its check: the first seat that waits, the three files of its job, and the state
// afterwards. (The check itself is called in the library's own crate: docs/SPEED.md, Second callers.) The state goes in by value
// and comes back by value; any state that a caller hands in is served.
#![tactic(auto)]

ghost use Rattle.std.specs.Prelude.{◌≡◌, ◌<◌, true, false, set};
ghost use Rattle.scheduler.specs.Scheduler.{vacant, refusal, after, next_seat};
ghost use Rattle.scheduler_turn.specs.Files.{seat_found, PartOf, FilesOf};

use answers::WriteResult;
use answers::refusals::Refusal;
use scheduler::{Job, Part, SEATS, Scheduler, Turned};

// The files of a job, in the buffer that it was submitted for.
#[derive(Clone, Copy)]
pub struct Files<'a> {
    pub a: &'a [u8],
    pub b: &'a [u8],
    pub proof: &'a [u8],
}

// The seat after a seat; 0 after 7.
fn after(seat: usize) -> usize
    requires { seat < 8 }
    ensures { result ≡ after seat }
{
    (seat + 1) % SEATS
}

// The first seat that waits, from the one to look at first upwards, 0 after 7.
pub fn next_seat(s: Scheduler) -> Option<usize>
    ensures { result ≡ seat_found (next_seat s) }
{
    let first = s.first % SEATS;
    for ahead in 0..SEATS {
        let seat = (first + ahead) % SEATS;
        if s.slots[seat].waiting != 0 {
            return Some(seat);
        }
    }
    None
}

// A part of the buffer, where it lies within.
fn part_of<'a>(buffer: &'a [u8], p: Part) -> Option<&'a [u8]>
    ensures { PartOf buffer.now p result }
{
    buffer.get(p.start..p.end)
}

// The files of a job, where all three lie within the buffer.
pub fn files_of<'a>(job: Job, buffer: &'a [u8]) -> Option<Files<'a>>
    ensures { FilesOf buffer.now job result }
{
    Some(Files {
        a: part_of(buffer, job.a)?,
        b: part_of(buffer, job.b)?,
        proof: part_of(buffer, job.proof)?,
    })
}

// The job at a seat was checked: the seat is cleared, and the next turn looks first at the one after it.
pub fn served(s: Scheduler, seat: usize, checked: WriteResult) -> Turned
    requires { seat < 8 }
    ensures { result ≡ record { scheduler = record { slots = set s.slots seat vacant; first = after seat }; result = checked; seat = seat; idle = false } }
{
    let mut scheduler = s;
    scheduler.slots[seat] = scheduler_change::vacant();
    scheduler.first = after(seat);
    Turned {
        scheduler,
        result: checked,
        seat,
        idle: false,
    }
}

// No job waits, and nothing changes: 35.
pub fn idle(s: Scheduler) -> Turned
    ensures { result ≡ record { scheduler = s; result = record { answer = refusal 35; count = 0 }; seat = 0; idle = true } }
{
    Turned {
        scheduler: s,
        result: WriteResult {
            answer: answers::by_name::refusal(Refusal::NoJob, 4, 0),
            count: 0,
        },
        seat: 0,
        idle: true,
    }
}
