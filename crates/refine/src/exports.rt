// The six operations for a host: slices in, numbers out. The crate refine_c exports them.
ghost use Rattle.std.specs.Prelude.{◌≡◌};
ghost use Rattle.decide.specs.Operations as deciding;
ghost use Rattle.restate.specs.Operations as writing;
ghost use Rattle.policy.specs.Reading.{told};
ghost use Rattle.refine.specs.Operations.{Feeds, Joins, Finishes, freshened, told_done};
ghost use Rattle.refine.specs.Exports.{reply, of_refusal, of_decision, of_decided, of_written, of_done, Replies};

use crate::operations;
use decision::deciding::Decision;
use policy::refusals::Refusal;

// A refusal's number and its place; or 0, 0, and what the operation answers: a decision, 1 allowed, 2 explicitly denied,
// 3 implicitly denied, with the statement that decides, counted from 1 and 0 where none does; or 0 and the bytes written.
#[repr(C)]
#[derive(Clone, Copy)]
pub struct Reply {
    pub number: u64,
    pub place: usize,
    pub decision: u64,
    pub detail: usize,
}

// A decision's number, 0 where there is none, and what is told beside it.
fn answered(decision: u64, detail: usize) -> Reply
    ensures { result ≡ reply 0 0 decision detail }
{
    Reply {
        number: 0,
        place: 0,
        decision,
        detail,
    }
}

impl From<Refusal> for Reply {
    ghost from_gives = { λ f r. r ≡ of_refusal f };

    fn from(f: Refusal) -> Reply {
        Reply {
            number: u64::from(f.number()),
            place: f.place(),
            decision: 0,
            detail: 0,
        }
    }
}

impl From<Decision> for Reply {
    ghost from_gives = { λ d r. r ≡ of_decision d };

    fn from(d: Decision) -> Reply {
        match d {
            Decision::Allowed(n) => answered(1, n),
            Decision::Denied(n) => answered(2, n),
            Decision::Implicit => answered(3, 0),
        }
    }
}

fn of_decided(a: Result<Decision, Refusal>) -> Reply
    ensures { result ≡ of_decided (told a) }
{
    match a {
        Ok(d) => Reply::from(d),
        Err(f) => Reply::from(f),
    }
}

fn of_written(a: Result<usize, Refusal>) -> Reply
    ensures { result ≡ of_written (told a) }
{
    match a {
        Ok(n) => answered(0, n),
        Err(f) => Reply::from(f),
    }
}

fn of_done(a: Result<(), Refusal>) -> Reply
    ensures { result ≡ of_done (told_done a) }
{
    match a {
        Ok(()) => answered(0, 0),
        Err(f) => Reply::from(f),
    }
}

pub fn muckposy_decide(policy: &[u8], asked: &[u8]) -> Reply
    ensures { Replies (λ x. deciding.Decides policy.now asked.now x) of_decided result }
{
    of_decided(decide::operations::decide(policy, asked))
}

pub fn muckposy_feed(policy: &[u8], asked: &[u8], room: &mut [u32]) -> Reply
    ensures { Replies (λ x. Feeds policy.now asked.now room.old x room.new) of_decided result }
{
    of_decided(operations::feed(policy, asked, room))
}

pub fn muckposy_join(policy: &[u8], room: &mut [u32], other: &[u32]) -> Reply
    ensures { Replies (λ x. Joins policy.now room.old other.now x room.new) of_done result }
{
    of_done(operations::join(policy, room, other))
}

pub fn muckposy_finish(policy: &[u8], room: &[u32], out: &mut [u8]) -> Reply
    ensures { Replies (λ x. Finishes policy.now room.now out.old x out.new) of_written result }
{
    of_written(operations::finish(policy, room, out))
}

pub fn muckposy_restate(policy: &[u8], out: &mut [u8]) -> Reply
    ensures { Replies (λ x. writing.Restates policy.now out.old x out.new) of_written result }
{
    of_written(restate::operations::restate(policy, out))
}

pub fn muckposy_fresh(room: &mut [u32]) -> Reply
    ensures { Replies (λ x. (x, room.new) ≡ freshened room.old) of_done result }
{
    of_done(operations::fresh(room))
}
