// The six operations for a host, exported under their names: slices in, numbers out. Each promises what the function of
// crates/refine of the same name does.
#![tactic(auto)]

ghost use Rattle.std.specs.Prelude.{◌≡◌};
ghost use Rattle.decide.specs.Operations as deciding;
ghost use Rattle.restate.specs.Operations as writing;
ghost use Rattle.refine.specs.Operations.{Feeds, Joins, Finishes, freshened};
ghost use Rattle.refine.specs.Exports.{of_decided, of_written, of_done, Replies};

use refine::exports;
use refine::exports::Reply;

#[unsafe(no_mangle)]
pub extern "C" fn muckposy_decide(policy: &[u8], asked: &[u8]) -> Reply
    ensures { Replies (λ x. deciding.Decides policy.now asked.now x) of_decided result }
{
    exports::muckposy_decide(policy, asked)
}

#[unsafe(no_mangle)]
pub extern "C" fn muckposy_feed(policy: &[u8], asked: &[u8], room: &mut [u32]) -> Reply
    ensures { Replies (λ x. Feeds policy.now asked.now room.old x room.new) of_decided result }
{
    exports::muckposy_feed(policy, asked, room)
}

#[unsafe(no_mangle)]
pub extern "C" fn muckposy_join(policy: &[u8], room: &mut [u32], other: &[u32]) -> Reply
    ensures { Replies (λ x. Joins policy.now room.old other.now x room.new) of_done result }
{
    exports::muckposy_join(policy, room, other)
}

#[unsafe(no_mangle)]
pub extern "C" fn muckposy_finish(policy: &[u8], room: &[u32], out: &mut [u8]) -> Reply
    ensures { Replies (λ x. Finishes policy.now room.now out.old x out.new) of_written result }
{
    exports::muckposy_finish(policy, room, out)
}

#[unsafe(no_mangle)]
pub extern "C" fn muckposy_restate(policy: &[u8], out: &mut [u8]) -> Reply
    ensures { Replies (λ x. writing.Restates policy.now out.old x out.new) of_written result }
{
    exports::muckposy_restate(policy, out)
}

#[unsafe(no_mangle)]
pub extern "C" fn muckposy_fresh(room: &mut [u32]) -> Reply
    ensures { Replies (λ x. (x, room.new) ≡ freshened room.old) of_done result }
{
    exports::muckposy_fresh(room)
}
