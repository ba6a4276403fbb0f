// The operations over bytes.
ghost use Rattle.syntax.specs.Limits.{policy_bytes, record_bytes};
ghost use Rattle.syntax.specs.Policy.{Policy};
ghost use Rattle.held.specs.Held.{held};
ghost use Rattle.held.specs.Lying.{Lies, Lying};
ghost use Rattle.policy.specs.Reading.{Lent, told};
ghost use Rattle.decide.specs.Operations.{Decides, RecordDecides};

use decision::deciding;
use decision::deciding::Decision;
pub use policy::reading::{BRIEF, TERSE};
use policy::refusals::Refusal;
use policy::{reading, soon};

// A record under a held policy, with a run lent for the request.
fn decide_asked(policy: &[u32], asked: &[u8], run: &mut [u32]) -> Result<Decision, Refusal>
    requires { (Lying held policy.now 0) × (Lent record_bytes 1 asked.now run.old) }
    ensures { (p : Policy) → Lies policy.now 0 (held p) → RecordDecides p asked.now (told result) }
{
    reading::read_record(asked, run)?;
    Ok(deciding::decide(policy, run))
}

// A record under a held policy.
fn decide_record(policy: &[u32], asked: &[u8]) -> Result<Decision, Refusal>
    requires { Lying held policy.now 0 }
    ensures { (p : Policy) → Lies policy.now 0 (held p) → RecordDecides p asked.now (told result) }
{
    reading::with_request(
        asked,
        &mut |run: &mut [u32]| decide_asked(policy, asked, run),
    )
}

// Decide, with a run lent for the policy.
fn decide_lent(policy: &[u8], asked: &[u8], run: &mut [u32]) -> Result<Decision, Refusal>
    requires { Lent policy_bytes 0 policy.now run.old }
    ensures { Decides policy.now asked.now (told result) }
{
    reading::read_policy(policy, run)?;
    decide_record(run, asked)
}

pub fn decide(policy: &[u8], asked: &[u8]) -> Result<Decision, Refusal>
    ensures { Decides policy.now asked.now (told result) }
{
    if policy.len() <= reading::LEAST {
        return decide_lent(policy, asked, &mut [0u32; 512]);
    }
    soon::soon(policy)?;
    reading::with_run(
        policy,
        &mut |run: &mut [u32]| decide_lent(policy, asked, run),
    )
}
