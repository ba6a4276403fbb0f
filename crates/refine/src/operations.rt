// The operations on rooms, over bytes and numbers.
ghost use Rattle.std.specs.Prelude.{◌≡◌, true};
ghost use Rattle.syntax.specs.Limits.{policy_bytes, record_bytes};
ghost use Rattle.syntax.specs.Policy.{Policy, Request};
ghost use Rattle.held.specs.Held.{held, held_request};
ghost use Rattle.held.specs.Lying.{Lies, Lying};
ghost use Rattle.policy.specs.Reading.{Lent, told};
ghost use Rattle.decision.specs.Decision.{decide};
ghost use Rattle.rooms.specs.Rooms.{slots, charges, fed};
ghost use Rattle.refine.specs.Operations.{is_room, holds_for, Feeds, Joins, Finishes, freshened, told_done};
ghost use Rattle.refine.specs.Sound.{Sound, ShortRequest, HeldSound, HeldShort, PolicyFeeds, PolicyJoins};
ghost use Rattle.refine.specs.Sound.{PolicyFinishes, Holding, Kept};

use candidates::rows;
use decision::deciding::Decision;
use held::limits;
use policy::refusals::Refusal;
use policy::{reading, soon};
use refined::finishing;
use rooms::{listing, walking};
use writing::sink::Sink;

// The numbers of a room.
const ROOM: usize = 16384;

// Does a room hold what the room of a held policy can?
fn holds_room(run: &[u32], room: &[u32]) -> bool
    requires { (HeldSound run.now) × (is_room room.now ≡ true) }
    ensures { (p : Policy) → Lies run.now 0 (held p) → Sound p → result ≡ holds_for p room.now }
{
    let mut notes = [listing::BLANK; limits::ENTRIES];
    let n = listing::list_policy(run, &mut notes);
    walking::fits_room(run, &notes[..n], room)
}

// The decision on a held request; one that is allowed is charged.
fn feed_request(run: &[u32], request: &[u32], room: &mut [u32]) -> Decision
    requires { (Holding run.now room.old) × (HeldShort request.now) }
    ensures { (p : Policy) (q : Request) → Lies run.now 0 (held p) → Lies request.now 0 (held_request q) → Sound p → ShortRequest q → holds_for p room.old ≡ true → (result ≡ decide p q) × (room.new ≡ fed (slots p) (charges p q) room.old) }
{
    let mut notes = [listing::BLANK; limits::ENTRIES];
    let j = listing::decide_policy(run, request, &mut notes);
    let d = j.decision;
    match d {
        Decision::Allowed(n) => {
            walking::feed_room(run, request, &notes[..j.notes], room);
            Decision::Allowed(n)
        }
        Decision::Denied(n) => Decision::Denied(n),
        Decision::Implicit => Decision::Implicit,
    }
}

// Feed, under a held policy whose room this is, with a run lent for the request: the room stays such a one.
fn feed_asked(
    run: &[u32],
    asked: &[u8],
    request: &mut [u32],
    room: &mut [u32],
) -> Result<Decision, Refusal>
    requires { (Holding run.now room.old) × (Lent record_bytes 1 asked.now request.old) }
    ensures { (Holding run.now room.new) × ((p : Policy) → Lies run.now 0 (held p) → Sound p → holds_for p room.old ≡ true → PolicyFeeds p asked.now room.old (told result) room.new) }
{
    reading::read_record(asked, request)?;
    Ok(feed_request(run, request, room))
}

// The same for a caller that keeps the run for requests from one record to the next.
pub fn feed_record(
    run: &[u32],
    asked: &[u8],
    request: &mut [u32],
    room: &mut [u32],
) -> Result<Decision, Refusal>
    requires { Kept run.now request.old room.old }
    ensures { (Kept run.now request.new room.new) × ((p : Policy) → Lies run.now 0 (held p) → Sound p → holds_for p room.old ≡ true → PolicyFeeds p asked.now room.old (told result) room.new) }
{
    feed_asked(run, asked, request, room)
}

// Feed, under a held policy.
fn feed_held(run: &[u32], asked: &[u8], room: &mut [u32]) -> Result<Decision, Refusal>
    requires { (HeldSound run.now) × (is_room room.old ≡ true) }
    ensures { (p : Policy) → Lies run.now 0 (held p) → Sound p → PolicyFeeds p asked.now room.old (told result) room.new }
{
    if !holds_room(run, room) {
        return Err(Refusal::RoomContent);
    }
    reading::with_request(
        asked,
        &mut |request: &mut [u32]| { feed_asked(run, asked, request, room) },
    )
}

// Feed, with a run lent for the policy.
fn feed_lent(
    policy: &[u8],
    asked: &[u8],
    room: &mut [u32],
    run: &mut [u32],
) -> Result<Decision, Refusal>
    requires { (Lent policy_bytes 0 policy.now run.old) × (is_room room.old ≡ true) }
    ensures { Feeds policy.now asked.now room.old (told result) room.new }
{
    reading::read_policy(policy, run)?;
    feed_held(run, asked, room)
}

pub fn feed(policy: &[u8], asked: &[u8], room: &mut [u32]) -> Result<Decision, Refusal>
    ensures { Feeds policy.now asked.now room.old (told result) room.new }
{
    if room.len() != ROOM {
        return Err(Refusal::RoomLength);
    }
    soon::soon(policy)?;
    reading::with_run(
        policy,
        &mut |run: &mut [u32]| feed_lent(policy, asked, room, run),
    )
}

// Join, under a held policy.
fn join_held(run: &[u32], room: &mut [u32], other: &[u32]) -> Result<(), Refusal>
    requires { (HeldSound run.now) × (is_room room.old ≡ true) × (is_room other.now ≡ true) }
    ensures { (p : Policy) → Lies run.now 0 (held p) → Sound p → PolicyJoins p room.old other.now (told_done result) room.new }
{
    let mut notes = [listing::BLANK; limits::ENTRIES];
    let n = listing::list_policy(run, &mut notes);
    let listed = &notes[..n];
    if !walking::fits_room(run, listed, room) {
        return Err(Refusal::RoomContent);
    }
    if !walking::fits_room(run, listed, other) {
        return Err(Refusal::RoomContent);
    }
    walking::join_room(run, listed, room, other);
    Ok(())
}

// Join, with a run lent for the policy.
fn join_lent(policy: &[u8], room: &mut [u32], other: &[u32], run: &mut [u32]) -> Result<(), Refusal>
    requires { (Lent policy_bytes 0 policy.now run.old) × (is_room room.old ≡ true) × (is_room other.now ≡ true) }
    ensures { Joins policy.now room.old other.now (told_done result) room.new }
{
    reading::read_policy(policy, run)?;
    join_held(run, room, other)
}

pub fn join(policy: &[u8], room: &mut [u32], other: &[u32]) -> Result<(), Refusal>
    ensures { Joins policy.now room.old other.now (told_done result) room.new }
{
    if room.len() != ROOM || other.len() != ROOM {
        return Err(Refusal::RoomLength);
    }
    soon::soon(policy)?;
    reading::with_run(
        policy,
        &mut |run: &mut [u32]| join_lent(policy, room, other, run),
    )
}

// Finish, under a held policy: 10, or the refined policy handed out.
pub fn finish_held(run: &[u32], room: &[u32], out: &mut [u8]) -> Result<usize, Refusal>
    requires { (HeldSound run.now) × (is_room room.now ≡ true) }
    ensures { (p : Policy) → Lies run.now 0 (held p) → Sound p → PolicyFinishes p room.now out.old (told result) out.new }
{
    if !holds_room(run, room) {
        return Err(Refusal::RoomContent);
    }
    if !finishing::some_allowed(run, room) {
        return Err(Refusal::NoAllow);
    }
    let mut bytes = [0u8; 6144];
    let mut sink = Sink::new(&mut bytes);
    finishing::put_refined(run, room, &mut sink);
    restate::operations::deliver(&sink, out)
}

// Finish, with a run lent for the policy.
fn finish_lent(
    policy: &[u8],
    room: &[u32],
    out: &mut [u8],
    run: &mut [u32],
) -> Result<usize, Refusal>
    requires { (Lent policy_bytes 0 policy.now run.old) × (is_room room.now ≡ true) }
    ensures { Finishes policy.now room.now out.old (told result) out.new }
{
    reading::read_policy(policy, run)?;
    finish_held(run, room, out)
}

pub fn finish(policy: &[u8], room: &[u32], out: &mut [u8]) -> Result<usize, Refusal>
    ensures { Finishes policy.now room.now out.old (told result) out.new }
{
    if room.len() != ROOM {
        return Err(Refusal::RoomLength);
    }
    soon::soon(policy)?;
    reading::with_run(
        policy,
        &mut |run: &mut [u32]| finish_lent(policy, room, out, run),
    )
}

// An empty room.
pub fn fresh(room: &mut [u32]) -> Result<(), Refusal>
    ensures { (told_done result, room.new) ≡ freshened room.old }
{
    if room.len() != ROOM {
        return Err(Refusal::RoomLength);
    }
    rows::clear(room);
    Ok(())
}
