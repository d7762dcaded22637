// One pass over a lent row of watches, which is only read: what a request over it comes to.
#![tactic(auto)]

ghost use Rattle.std.specs.Prelude.{◌≡◌, length, min};
ghost use Rattle.meaning.specs.Desks.{watch_at};
ghost use Rattle.desk_tasks.specs.Tasks.{pass_over, watch_for};
ghost use Rattle.desk_tasks.specs.Surveys.{Surveyed};

use desk_tasks::{Request, Service, Task, begin, decide, look, wanted};
use meaning::{Refusal, Watch};
use watches::no_watch;

// The task after a pass over the watches below its `upto`, from the last to the first.
pub fn scan(desk: &[Watch], task: Task) -> Task
    ensures { result ≡ pass_over desk.now (min task.upto (length desk.now)) task }
{
    let mut s = task;
    for number in (0..task.upto.min(desk.len())).rev() {
        s = look(s, desk[number], number);
    }
    s
}

// The watch with a number, past the row as well.
pub fn watch_at(desk: &[Watch], number: usize) -> Watch
    ensures { result ≡ watch_at desk.now number }
{
    if number < desk.len() {
        desk[number]
    } else {
        no_watch()
    }
}

// The watch that is asked for, where one is.
fn watch_for(desk: &[Watch], wanted: Option<usize>) -> Watch
    ensures { result ≡ watch_for desk.now wanted }
{
    match wanted {
        Some(number) => watch_at(desk, number),
        None => no_watch(),
    }
}

// The service that a request comes to, over the bytes of a table and its counts.
pub fn survey<'d, 't>(
    desk: &'d [Watch],
    t: &'t [u8],
    signals: u8,
    states: u16,
    request: Request,
) -> Result<Service, Refusal>
    ensures { Surveyed t.now signals states request desk.now result }
{
    let s = scan(desk, begin(t, signals, states, request, desk.len()));
    decide(t, s, watch_for(desk, wanted(s)))
}
