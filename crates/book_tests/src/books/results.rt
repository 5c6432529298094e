//! The verdicts on tasks that are done or have failed.
use super::{AMPLE, ONE_TASK, Row, plays};
use std::test::Fail;

pub const ROWS: &[Row<'static>] = &[
    // The second handle is admitted once the tasks have ended.
    Row {
        name: "VERDICTS_ARE_READ",
        plan: "version = 1\n[[block]]\ncall = [{ op = 'schedule', name = 'a', delay = 0 },\
               { op = 'schedule', name = 'b', delay = 0 }, { op = 'rate', name = 'c', first = 0, period = 5 }]",
        script: "admit | Admitted\nhandle 0 result 0 | Verdict(None)\nhandle 0 agrees 0 | Verdict(None)\n\
                 clock 0 | Lines(4, None)\nstart 0 | Lines(1, Some(Work { task: 0, run: 0 }))\n\
                 finish 0 ok 7 | Lines(1, None)\nstart 0 | Lines(1, Some(Work { task: 1, run: 0 }))\n\
                 finish 0 fail 3 | Lines(1, None)\nstart 0 | Lines(1, Some(Work { task: 2, run: 0 }))\n\
                 finish 0 ok 9 | Lines(1, None)\n\
                 handle 0 result 0 | Verdict(Some(Verdict { task: 0, ending: Value(7) }))\n\
                 handle 0 result 1 | Verdict(Some(Verdict { task: 1, ending: Fault(3) }))\n\
                 handle 0 result 2 | Verdict(None)\nhandle 0 result 3 | Verdict(None)\n\
                 handle 0 agrees 0 | Verdict(Some(Verdict { task: 0, ending: Value(7) }))\n\
                 handle 0 agrees 1 | Verdict(Some(Verdict { task: 1, ending: Fault(3) }))\n\
                 handle 0 agrees 2 | Verdict(None)\nhandle 0 agrees 3 | Verdict(None)\n\
                 handle 0 result 0 | Verdict(Some(Verdict { task: 0, ending: Value(7) }))\nadmit | Admitted\n\
                 handle 1 result 0 | Verdict(Some(Verdict { task: 0, ending: Value(7) }))\n\
                 handle 1 agrees 1 | Verdict(Some(Verdict { task: 1, ending: Fault(3) }))\n\
                 handle 1 result 1 | Verdict(Some(Verdict { task: 1, ending: Fault(3) }))\n\
                 handle 1 result 2 | Verdict(None)\n",
        trace: "0 submit 0 schedule due 0\n0 submit 1 schedule due 0\n0 submit 2 rate due 0\n0 clock\n\
                0 start 0 task 0 run 0 due 0\n0 finish 0 task 0 run 0 done 7\n0 start 0 task 1 run 0 due 0\n\
                0 finish 0 task 1 run 0 failed 3\n0 start 0 task 2 run 0 due 0\n0 finish 0 task 2 run 0 again due 5\n",
    },
    Row {
        name: "a dropped run has no verdict",
        plan: ONE_TASK,
        script: "admit | Admitted\nclock 0 | Lines(2, None)\nstart 0 | Lines(1, Some(Work { task: 0, run: 0 }))\n\
                 handle 0 cancel 0 | Cancel(Yes)\nfinish 0 ok 7 | Lines(2, None)\nhandle 0 result 0 | Verdict(None)\n\
                 handle 0 agrees 0 | Verdict(None)\n",
        trace: "0 submit 0 schedule due 0\n0 clock\n0 start 0 task 0 run 0 due 0\n0 outside 0 yes\n\
                0 finish 0 task 0 run 0 dropped\n",
    },
];

/// The plan of many tasks.
const MANY: &str =
    "version = 1\n[[block]]\ntimes = 70\nevery = 0\ncall = [{ op = 'execute', name = 'a' }]\n";

/// How the run of a task ends, in the words of an event, of a verdict and of a line.
fn ending_of(task: u32) -> [&'static str; 3] {
    if task % 2 == 0 {
        ["ok", "Value", "done"]
    } else {
        ["fail", "Fault", "failed"]
    }
}

/// What is done with the tasks, and what is told: each is started and ends.
fn write_runs(script: &mut String) -> Result<(), Fail> {
    for task in 0..70u32 {
        let [word, _, _] = ending_of(task);
        write!(
            script,
            "start 0 | Lines(1, Some(Work {{ task: {task}, run: 0 }}))\nfinish 0 {word} {task} | Lines(1, None)\n"
        )?;
    }
    Ok(())
}

/// What is asked of the tasks once all have ended, and what is told.
fn write_asked(script: &mut String) -> Result<(), Fail> {
    for task in 0..70u32 {
        let [_, ending, _] = ending_of(task);
        let verdict = "Verdict(Some(Verdict { task: ";
        write!(
            script,
            "handle 0 agrees {task} | {verdict}{task}, ending: {ending}({task}) }}))\n"
        )?;
        write!(
            script,
            "handle 0 result {task} | {verdict}{task}, ending: {ending}({task}) }}))\n"
        )?;
    }
    Ok(())
}

/// The lines of the tasks: all are submitted, and then each is started and ends.
fn write_lines(trace: &mut String) -> Result<(), Fail> {
    for task in 0..70u32 {
        write!(trace, "0 submit {task} schedule due 0\n")?;
    }
    trace.push_str("0 clock\n")?;
    for task in 0..70u32 {
        let [_, _, outcome] = ending_of(task);
        write!(
            trace,
            "0 start 0 task {task} run 0 due 0\n0 finish 0 task {task} run 0 {outcome} {task}\n"
        )?;
    }
    Ok(())
}

#[test]
fn each_of_many_tasks_has_its_verdict(rt: HostRuntime) -> Result<(), Fail> {
    let mut script = String::from_str(rt.alloc(), "admit | Admitted\nclock 0 | Lines(71, None)\n")?;
    write_runs(&mut script)?;
    write_asked(&mut script)?;
    let mut trace = String::new(rt.alloc());
    write_lines(&mut trace)?;
    let row = Row {
        name: "each of many tasks has its verdict",
        plan: MANY,
        script: script.as_str(),
        trace: trace.as_str(),
    };
    plays(&rt, &row, AMPLE)
}
