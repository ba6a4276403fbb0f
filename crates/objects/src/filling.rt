// What stands for a member that is absent.
ghost use Rattle.std.specs.Prelude.{◌≤◌, ◌<◌, length};
ghost use Rattle.objects.specs.Spans.{behind};
ghost use Rattle.objects.specs.Filling.{Fills};

// Numbers behind all parts for the part of a turn, if it is absent and there is room.
pub fn filled(run: &mut [u32], spans: [usize; 12], k: usize, numbers: &[u32]) -> Option<[usize; 12]>
    requires { (0 < k) × (k ≤ 5) × (behind spans ≤ length run.old) }
    ensures { Fills numbers.now run.old run.new spans k result }
{
    if spans[k + k + 1] != 0 {
        return Some(spans);
    }
    let from = spans[1];
    if run.len() - from < numbers.len() {
        return None;
    }
    let to = from + numbers.len();
    run[from..to].copy_from_slice(numbers);
    let mut all = spans;
    all[k + k] = from;
    all[k + k + 1] = to;
    all[1] = to;
    Some(all)
}
