// A held policy, written out.
ghost use Rattle.syntax.specs.Policy.{Policy};
ghost use Rattle.held.specs.Held.{held};
ghost use Rattle.held.specs.Lying.{Lies, Lying};
ghost use Rattle.writing.specs.WrittenForm.{written_policy};
ghost use Rattle.writing.specs.Showing.{Adds};

use crate::sink::Sink;
use crate::statements;
use held::runs;

pub fn put_policy(run: &[u32], sink: &mut Sink)
    requires { Lying held run.now 0 }
    ensures { (x : Policy) → Lies run.now 0 (held x) → Adds (written_policy x) sink.old sink.new }
{
    let n = run[0] as usize;
    sink.put_bytes(b"{\"Version\":\"2012-10-17\",\"Statement\":[");
    let mut p = 1usize;
    for i in 0..n {
        sink.put_between(i);
        statements::put_statement(run, p, sink);
        p = runs::statement(run, p).past;
    }
    sink.put_bytes(b"]}");
}
