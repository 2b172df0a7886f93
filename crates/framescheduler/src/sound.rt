// Whether a run is sound. (01, Numbers for no: "A state is sound (else 13) if ..", the clauses that
// concern tasks, the last-run job and the counts.) Asked once, at the door.

ghost use Rattle.std.specs.Prelude.{◌≡◌, ◌≤◌};
ghost use Rattle.framerun.specs.Sound.{frame_sound};
ghost use Rattle.framescheduler.specs.Inner.{tasks_sound};

use framerun::FrameRun;

fn tasks_sound(r: &FrameRun) -> bool
    requires { r.now.table.ntasks ≤ 64 }
    ensures { result ≡ tasks_sound r.now.table r.now.state r.now.table.ntasks }
{
    for (k, task) in r.table.tasks[..r.table.ntasks].iter().enumerate() {
        let ran = queues::is_last(r.state.last, k);
        if !queues::queue_sound(task.limit.0, r.state.waiting[k], r.state.runs[k], ran) {
            return false;
        }
    }
    true
}

pub(crate) fn run_sound(r: &FrameRun) -> bool
    ensures { result ≡ frame_sound r.now }
{
    if !frametable::frame_table_keeps(r.table) {
        return false;
    }
    let n = r.table.ntasks;
    let s = &r.state;
    let tasks = tasks_sound(r);
    let last = queues::last_sound(n, s.waiting, s.runs, s.ticks.0, s.last);
    let counts = queues::counts_sound(n, s.waiting, s.ticks.0, s.accepted);
    laws::all_of(&[tasks, last, counts])
}
