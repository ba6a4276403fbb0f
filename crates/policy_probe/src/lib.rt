// The readers of policies and records as numbers, for tests from Rust. No part of the product.
#![tactic(auto)]

ghost use Rattle.std.specs.Prelude.{◌≡◌};
ghost use Rattle.held.specs.Held.{held, held_request};
ghost use Rattle.policy.specs.Reading.{policy_rules, record_rules};
ghost use Rattle.policy_probe.specs.Numbers.{of_read, Tells};

use policy::reading;
use policy::refusals::Refusal;

// A refusal's number and its place; or 0, 0, and how many numbers of the run hold what was read.
#[repr(C)]
#[derive(Clone, Copy)]
pub struct Told {
    pub refusal: u64,
    pub place: usize,
    pub count: usize,
}

const RUN: usize = 16384;

fn numbers(r: Result<usize, Refusal>) -> Told
    ensures { result ≡ of_read r }
{
    match r {
        Ok(n) => Told {
            refusal: 0,
            place: 0,
            count: n,
        },
        Err(f) => Told {
            refusal: u64::from(f.number()),
            place: f.place(),
            count: 0,
        },
    }
}

#[unsafe(no_mangle)]
pub extern "C" fn policy_probe_policy(s: &[u8], run: &mut [u32]) -> Told
    ensures { Tells policy_rules held s.now run.old run.new result }
{
    if run.len() != RUN {
        return Told {
            refusal: 1,
            place: 0,
            count: 0,
        };
    }
    numbers(reading::read_policy(s, run))
}

#[unsafe(no_mangle)]
pub extern "C" fn policy_probe_record(s: &[u8], run: &mut [u32]) -> Told
    ensures { Tells record_rules held_request s.now run.old run.new result }
{
    if run.len() != RUN {
        return Told {
            refusal: 1,
            place: 0,
            count: 0,
        };
    }
    numbers(reading::read_record(s, run))
}
