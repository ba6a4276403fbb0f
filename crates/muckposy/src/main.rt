// The program: policy.json of its folder, then records from standard input, one to a line, then the refined policy. It
// reads, calls and prints; whatever is decided is decided in the library.
#![tactic(auto)]

mod feeding;
mod reading;

ghost use Rattle.std.specs.Prelude.{◌≡◌, ◌≤◌, length, IfOk};
ghost use Rattle.refine.specs.Sound.{HeldSound};

use reading::Log;
use std::fs::File;
use std::io;

// One byte more than a policy may have is enough to refuse it.
const POLICY: usize = 16385;

// The whole input; or nothing, where it could not be read to its end. A proved loop has to end, and nothing says that the
// input does: so the pieces are counted, up to a number that no run comes to.
fn feed_all(rt: &impl Print, input: &mut impl io::Read, log: &mut Log) -> io::Result<Option<()>>
    ensures { log.new.feeder.0 ≡ log.old.feeder.0 }
{
    let mut piece = [0u8; 65536];
    for _ in 0..u64::MAX {
        let Ok(n) = input.read(&mut piece) else {
            return Ok(None);
        };
        if n == 0 {
            return Ok(Some(()));
        }
        log.feed(rt, &piece[..n])?;
    }
    Ok(None)
}

// All records, and then the result; nothing more where the input cannot be read to its end.
fn refine_log(rt: &(impl Input + Print + Eprint), run: &[u32]) -> io::Result<()>
    requires { HeldSound run.now }
{
    let mut log = Log::new(run);
    let mut input = rt.reader();
    match feed_all(rt, &mut input, &mut log)? {
        Some(()) => log.finish(rt),
        None => eprintln!(rt; "standard input could not be read to its end"),
    }
}

// The policy is read once; one that is refused is told before a record is looked at.
fn run(rt: &(impl Input + Print + Eprint), policy: &[u8]) -> io::Result<()> {
    let mut run = [0u32; 16384];
    match policy::reading::read_policy(policy, &mut run) {
        Ok(_) => refine_log(rt, &run),
        Err(refusal) => println!(rt; "{refusal}"),
    }
}

fn no_policy(rt: &impl Print) -> io::Result<()> {
    println!(rt; "no policy")
}

// As much of the policy's file as there is room for. One read more shows that it can be read on from there.
fn take_policy(file: &mut impl io::Read, policy: &mut [u8]) -> io::Result<usize>
    ensures { IfOk result (λ n. n ≤ length policy.new) }
{
    let n = reading::read_full(file, policy)?;
    file.read(&mut [0u8; 1])?;
    Ok(n)
}

fn main(rt: HostRuntime) -> io::Result<()> {
    let Ok(mut file) = File::open(&rt, "policy.json") else {
        return no_policy(&rt);
    };
    let mut policy = [0u8; POLICY];
    let Ok(n) = take_policy(&mut file, &mut policy) else {
        let said = eprintln!(rt; "policy.json could not be read to its end");
        no_policy(&rt)?;
        return said;
    };
    run(&rt, &policy[..n])
}
