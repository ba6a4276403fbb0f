// A policy text and a record, any bytes: held in a lent run, or refused by number and place.
ghost use Rattle.std.specs.Prelude.{◌≡◌, ◌≤◌, length, List, ℕ};
ghost use Rattle.std.specs.Borrow.{MutBor};
ghost use Rattle.syntax.specs.Limits.{policy_bytes, record_bytes, run_numbers};
ghost use Rattle.held.specs.Held.{held, held_request};
ghost use Rattle.objects.specs.Leaving.{Leaves};
ghost use Rattle.policy.specs.Reading.{policy_rules, record_rules, Answers, Lent, Lends, LendsRun, Fit};

use crate::refusals::Refusal;
use crate::{onward, requests, statements};
use held::{limits, runs};
use objects::leaving::Place;
use text::fault::Fault;
use text::{scan, walk};

// A policy text of at most so many bytes is held in a run of twice as many numbers, and a longer one in one of 16,384: to
// make a run costs by its length, and most texts are short.
pub const LEAST: usize = 256;

pub const TINY: usize = 512;

pub const SMALL: usize = 1024;

pub const SHORT: usize = 2048;

pub const MIDDLE: usize = 4096;

pub const LONG: usize = 6144;

// Lends f a run of N numbers. It has a frame of its own, so that runs of many lengths take no more than the one lent.
#[inline(never)]
fn lend<const N: usize, R, F: FnMut(&mut [u32]) -> R>(f: &mut F) -> R
    requires few { N ≤ run_numbers }
    requires callable { (run : MutBor (List ℕ)) → length run.now ≡ N → F.pre f.old run }
    ensures { Lends F.FnMut N f.old result f.new }
{
    f(&mut [0u32; N])
}

// Lends f a run that is as long as a policy text needs.
pub fn with_run<R, F: FnMut(&mut [u32]) -> R>(policy: &[u8], f: &mut F) -> R
    requires { (run : MutBor (List ℕ)) → Lent policy_bytes 0 policy.now run.now → F.pre f.old run }
    ensures { LendsRun F.FnMut policy_bytes 0 policy.now f.old result f.new }
{
    let n = policy.len();
    if n <= TINY {
        lend::<1024, R, F>(f)
    } else if n <= SMALL {
        lend::<2048, R, F>(f)
    } else if n <= SHORT {
        lend::<4096, R, F>(f)
    } else if n <= MIDDLE {
        lend::<8192, R, F>(f)
    } else if n <= LONG {
        lend::<12288, R, F>(f)
    } else {
        lend::<16384, R, F>(f)
    }
}

// A record of at most so many bytes is held in a run of twice as many numbers and some more, a longer one in one of
// 8,448.
pub const TERSE: usize = 512;

pub const BRIEF: usize = 1024;

// Lends f a run that is as long as a record needs.
pub fn with_request<R, F: FnMut(&mut [u32]) -> R>(asked: &[u8], f: &mut F) -> R
    requires { (run : MutBor (List ℕ)) → Lent record_bytes 1 asked.now run.now → F.pre f.old run }
    ensures { LendsRun F.FnMut record_bytes 1 asked.now f.old result f.new }
{
    let n = asked.len();
    if n <= TERSE {
        lend::<1056, R, F>(f)
    } else if n <= BRIEF {
        lend::<2112, R, F>(f)
    } else {
        lend::<8448, R, F>(f)
    }
}

// What was read lies at the run's beginning, up to the place that each reader answers; or there is a refusal.

// A whole text that is not too long, as a policy.
fn whole_policy(s: &[u8], run: &mut [u32]) -> Result<usize, Refusal>
    requires { Fit policy_bytes 0 s.now run.old }
    ensures { Answers policy_rules held s.now run.new result }
{
    let v = walk::root(s);
    let h = statements::hold_policy(s, v, run);
    let Some(n) = h else {
        return Err(Refusal::PolicyLayout);
    };
    if runs::over_limit(run) {
        return Err(Refusal::PolicyLimit);
    }
    Ok(n)
}

// A whole text that is not too long, as a record.
fn whole_record(s: &[u8], run: &mut [u32]) -> Result<usize, Refusal>
    requires { Fit record_bytes 1 s.now run.old }
    ensures { Answers record_rules held_request s.now run.new result }
{
    let v = walk::root(s);
    let h = requests::hold_request(s, v, run);
    let Some(n) = h else {
        return Err(Refusal::RecordLayout);
    };
    Ok(n)
}

// A policy text that was given up at a place: judged from there on, and then held.
fn judged_policy(s: &[u8], x: Place, run: &mut [u32]) -> Result<usize, Refusal>
    requires { (length s.now ≤ policy_bytes) × ((Lent policy_bytes 0 s.now run.old) × (Leaves s.now x)) }
    ensures { Answers policy_rules held s.now run.new result }
{
    match onward::judged(s, x) {
        Ok(()) => {
            if onward::blamed(s, x, run) {
                return Err(Refusal::PolicyLayout);
            }
            whole_policy(s, run)
        }
        Err(Fault::Breaks(p)) => Err(Refusal::PolicyText(p)),
        Err(Fault::Deep) => Err(Refusal::PolicyLayout),
    }
}

// A record that is not too long, likewise.
fn judged_record(s: &[u8], run: &mut [u32]) -> Result<usize, Refusal>
    requires { (length s.now ≤ record_bytes) × (Lent record_bytes 1 s.now run.old) }
    ensures { Answers record_rules held_request s.now run.new result }
{
    match scan::scan(s) {
        Ok(()) => whole_record(s, run),
        Err(Fault::Breaks(p)) => Err(Refusal::RecordText(p)),
        Err(Fault::Deep) => Err(Refusal::RecordLayout),
    }
}

// A policy text is read in one walk; where that is given up, it goes on another way.
pub fn read_policy(s: &[u8], run: &mut [u32]) -> Result<usize, Refusal>
    requires { Lent policy_bytes 0 s.now run.old }
    ensures { Answers policy_rules held s.now run.new result }
{
    if s.len() > limits::POLICY {
        return Err(Refusal::PolicyLength);
    }
    let h = objects::policies::policy(s, run);
    match h {
        Ok(n) => {
            if runs::over_limit(run) {
                return Err(Refusal::PolicyLimit);
            }
            Ok(n)
        }
        Err(x) => judged_policy(s, x, run),
    }
}

// A record likewise.
pub fn read_record(s: &[u8], run: &mut [u32]) -> Result<usize, Refusal>
    requires { Lent record_bytes 1 s.now run.old }
    ensures { Answers record_rules held_request s.now run.new result }
{
    if s.len() > limits::RECORD {
        return Err(Refusal::RecordLength);
    }
    let h = objects::records::record(s, run);
    let Some(n) = h else {
        return judged_record(s, run);
    };
    Ok(n)
}
