// Restate over bytes, and the end of every operation that writes a policy.
ghost use Rattle.std.specs.Prelude.{◌≡◌, List, length, ℕ, ◌≤◌};
ghost use Rattle.chars.specs.Putting.{lay};
ghost use Rattle.syntax.specs.Limits.{policy_bytes, result_bytes};
ghost use Rattle.syntax.specs.Policy.{Policy};
ghost use Rattle.held.specs.Held.{held};
ghost use Rattle.held.specs.Lying.{Lies, Lying};
ghost use Rattle.policy.specs.Reading.{Lent, told};
ghost use Rattle.writing.specs.Showing.{Shows, size};
ghost use Rattle.writing.specs.WrittenForm.{written_policy};
ghost use Rattle.restate.specs.Operations.{Restates, handed};

use policy::refusals::Refusal;
use policy::{reading, soon};
use writing::policies;
use writing::sink::Sink;

// A policy that is held in so few numbers is seldom longer than 512 bytes in its written form.
const FEW: usize = 256;

// Each function answers how many bytes were written; or a refusal, and nothing was.

// The bytes at the beginning of what is lent, one by one: the library's copying would make the archive need memmove.
fn copy(bytes: &[u8], out: &mut [u8])
    requires { length bytes.now ≤ length out.old }
    ensures { out.new ≡ lay bytes.now out.old }
{
    for i in 0..bytes.len() {
        out[i] = bytes[i];
    }
}

// These bytes, if they are not too many for what is lent.
fn given(bytes: &[u8], out: &mut [u8]) -> Result<usize, Refusal>
    requires { length bytes.now ≤ result_bytes }
    ensures { (told result, out.new) ≡ handed bytes.now out.old }
{
    let n = bytes.len();
    if n > out.len() {
        return Err(Refusal::OutputLength);
    }
    copy(bytes, out);
    Ok(n)
}

// What was put into a sink, if it is not too much for a result and for what is lent.
pub fn deliver(sink: &Sink, out: &mut [u8]) -> Result<usize, Refusal>
    requires { size sink.now ≡ result_bytes }
    ensures { (ws : List ℕ) → Shows ws sink.now → (told result, out.new) ≡ handed ws out.old }
{
    match sink.written() {
        Some(bytes) => given(bytes, out),
        None => Err(Refusal::ResultLength),
    }
}

// A held policy, if it is not too long for a result and for what is lent.
fn hand_any(run: &[u32], out: &mut [u8]) -> Result<usize, Refusal>
    requires { Lying held run.now 0 }
    ensures { (x : Policy) → Lies run.now 0 (held x) → (told result, out.new) ≡ handed (written_policy x) out.old }
{
    let mut room = [0u8; 6144];
    let mut sink = Sink::new(&mut room);
    policies::put_policy(run, &mut sink);
    deliver(&sink, out)
}

// The same for one that takes so many numbers: where they are few, a small room is tried first, which is cleared sooner.
fn hand(run: &[u32], numbers: usize, out: &mut [u8]) -> Result<usize, Refusal>
    requires { Lying held run.now 0 }
    ensures { (x : Policy) → Lies run.now 0 (held x) → (told result, out.new) ≡ handed (written_policy x) out.old }
{
    if numbers <= FEW {
        let mut room = [0u8; 512];
        let mut sink = Sink::new(&mut room);
        policies::put_policy(run, &mut sink);
        if let Some(bytes) = sink.written() {
            return given(bytes, out);
        }
    }
    hand_any(run, out)
}

// Restate, with a run lent for the policy.
fn restate_lent(policy: &[u8], out: &mut [u8], run: &mut [u32]) -> Result<usize, Refusal>
    requires { Lent policy_bytes 0 policy.now run.old }
    ensures { Restates policy.now out.old (told result) out.new }
{
    let n = reading::read_policy(policy, run)?;
    hand(run, n, out)
}

pub fn restate(policy: &[u8], out: &mut [u8]) -> Result<usize, Refusal>
    ensures { Restates policy.now out.old (told result) out.new }
{
    if policy.len() <= reading::LEAST {
        return restate_lent(policy, out, &mut [0u32; 512]);
    }
    soon::soon(policy)?;
    reading::with_run(
        policy,
        &mut |run: &mut [u32]| restate_lent(policy, out, run),
    )
}
