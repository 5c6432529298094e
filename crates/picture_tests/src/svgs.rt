//! Pictures of a small trace.

mod piles;
mod stacks;
mod usage;

use crate::traces::lines_of;
use byte_ends::Writing;
use linked_list_allocator::LocalHeap;
use plan_compile::names_of_tasks;
use plan_read::{Name, Plan, read_plan};
use scripted_runs::ends::{Script, Taking, Trouble};
use std::alloc::{AllocError, Global};
use std::io::ErrorKind;
use std::process::Abort;
use std::test::Fail;
use trace_check::MOST_BYTES;
use trace_draw::{picture, whole_window};
use trace_svg::{DrawError, Drawn, View, draw, picture_text};

/// A plan of two tasks.
const PLAN: &str =
    "version = 1\n[[block]]\ncall = [ { op = \"schedule\", name = \"a\", delay = 5 }, { op = \"execute\", name = \"bee\" } ]\n";

/// A trace of it: one task is run to its end, and the other is still run at the end.
const TRACE: &str = "\
    0 submit 0 schedule due 5\n0 submit 1 schedule due 0\n0 clock\n0 start 1 task 1 run 0 due 0\n\
    5 clock\n5 start 0 task 0 run 0 due 5\n9 clock\n9 finish 0 task 0 run 0 done 7\n\
    10 clock\n";

/// What stands in its picture, in this order.
const PARTS: &[&str] = &[
    "<svg xmlns=\"http://www.w3.org/2000/svg\" width=\"1240\" height=\"260\" viewBox=\"0 0 1240 260\">\n",
    "<text class=\"row\" x=\"100\" y=\"215\">worker 1</text>\n",
    "<text class=\"tick\" x=\"534\" y=\"246\">4 ns</text>\n",
    "<rect class=\"done\" x=\"640\" y=\"172\" width=\"424\" height=\"22\"><title>a\n5 start 0 task 0 run 0 due 5\n9 finish 0 task 0 run 0 done 7\n</title></rect>\n<text class=\"run\" x=\"644\" y=\"187\">a #0</text>\n",
    "<rect class=\"open\" x=\"110\" y=\"200\" width=\"1060\" height=\"22\"><title>bee\n0 start 1 task 1 run 0 due 0\n</title></rect>\n<text class=\"run\" x=\"114\" y=\"215\">bee #0</text>\n",
    "<use class=\"submit\" href=\"#submit\" x=\"110\" y=\"62\"><title>0 submit 0 schedule due 5\n</title></use>\n<use class=\"submit\" href=\"#submit\" x=\"110\" y=\"62\"><title>0 submit 0 schedule due 5\n0 submit 1 schedule due 0\n</title></use>\n<text class=\"count\" x=\"116\" y=\"59\">2</text>\n",
    "<use class=\"clock\" href=\"#clock\" x=\"1170\" y=\"134\"><title>10 clock\n</title></use>\n",
    "</svg>\n",
];

/// All of it.
const WHOLE: View = View {
    from: None,
    to: None,
    marks: 6,
};

/// The script of a writer that fails at its call of this number, and takes 100 bytes in each.
fn fails_at(number: u32) -> Script {
    Script {
        trouble_at: number,
        trouble: Trouble::Fails(ErrorKind::BrokenPipe),
        most: 100,
        interrupts: 0,
    }
}

/// The plan.
fn plan(alloc: Global) -> Result<Plan<Global>, Fail> {
    Ok(read_plan(alloc, PLAN.as_bytes())?)
}

/// What a drawing answered, in words.
fn told(alloc: Global, answer: Result<Drawn, DrawError>) -> Result<String, AllocError> {
    match answer {
        Ok(Drawn::Drawn) => String::from_str(alloc, "drawn"),
        Ok(Drawn::Breaks(line)) => format!(in alloc; "breaks {line}"),
        Err(error) => error.to_string(alloc),
    }
}

/// What a drawing answered, in words, and what it wrote.
fn drawn(alloc: Global, workers: u8, trace: &str, view: View) -> Result<(String, Vec<u8>), Fail> {
    let plan = plan(alloc)?;
    let front = &trace.as_bytes()[..trace.len().min(MOST_BYTES)];
    let mut writer = Writing::new(Vec::new(alloc));
    let answer = draw(alloc, &plan, workers, front, view, &mut writer);
    Ok((told(alloc, answer)?, writer.into_inner()))
}

/// The picture of lines of a trace with two workers, where tasks have these names.
fn picture_with_names(alloc: Global, trace: &str, names: &[&Name]) -> Result<String, Fail> {
    let lines = lines_of(alloc, trace)?;
    let shown = picture(alloc, &lines, 2, whole_window(&lines), 100)?;
    Ok(picture_text(alloc, &shown, names)?)
}

/// The picture of lines of a trace with two workers, where no task has a name.
fn picture_of(alloc: Global, trace: &str) -> Result<String, Fail> {
    picture_with_names(alloc, trace, &[])
}

/// What stands behind these parts of a text, if they stand in it in this order.
fn behind_parts<'t>(text: &'t str, parts: &[&str]) -> Option<&'t str> {
    let mut rest = text;
    for part in parts {
        (_, rest) = rest.split_once(*part)?;
    }
    Some(rest)
}

#[test]
fn a_trace_is_drawn(rt: HostRuntime) -> Result<(), Fail> {
    let (answer, text) = drawn(rt.alloc(), 2, TRACE, WHOLE)?;
    assert!(rt; answer.as_str() == "drawn", "{answer}");
    assert!(rt; behind_parts(std::str::from_utf8(&text)?, PARTS) == Some(""));
    Ok(())
}

#[test]
fn a_picture_is_that_of_its_lines(rt: HostRuntime) -> Result<(), Fail> {
    let (_, text) = drawn(rt.alloc(), 2, TRACE, WHOLE)?;
    let plan = plan(rt.alloc())?;
    let names = names_of_tasks(rt.alloc(), &plan)?;
    let with_names = picture_with_names(rt.alloc(), TRACE, &names)?;
    assert!(rt; with_names.as_bytes() == text.as_slice());
    let without_names = picture_of(rt.alloc(), TRACE)?;
    assert!(rt; without_names.contains("<title>?\n0 start 1 task 1 run 0 due 0\n</title>"));
    Ok(())
}

/// Faults: the number of workers, the trace, the view, and what is told.
const FAULTS: &[(u8, &str, View, &str)] = &[
    (0, TRACE, WHOLE, "the number of workers is not 1 to 64"),
    (1, TRACE, WHOLE, "breaks 4"),
    (2, "0 clock\n", WHOLE, "breaks 1"),
    (
        2,
        TRACE,
        View {
            from: Some(6),
            to: Some(5),
            marks: 6,
        },
        "the picture ends before it begins",
    ),
    (
        2,
        TRACE,
        View { marks: 5, ..WHOLE },
        "6 marks or bars are too many",
    ),
    (
        2,
        TRACE,
        View { marks: 0, ..WHOLE },
        "6 marks or bars are too many",
    ),
];

#[test]
fn each_fault_is_told_with_nothing_written(rt: HostRuntime) -> Result<(), Fail> {
    for (workers, trace, view, wanted) in FAULTS {
        let (answer, text) = drawn(rt.alloc(), *workers, trace, *view)?;
        assert!(rt; answer.as_str() == *wanted, "{wanted}: {answer}");
        assert!(rt; text.is_empty());
    }
    Ok(())
}

#[test]
fn a_part_of_a_trace_is_drawn(rt: HostRuntime) -> Result<(), Fail> {
    let view = View {
        from: Some(5),
        to: Some(9),
        marks: 2,
    };
    let (answer, text) = drawn(rt.alloc(), 2, TRACE, view)?;
    assert!(rt; answer.as_str() == "drawn", "{answer}");
    let text = std::str::from_utf8(&text)?;
    assert!(rt; text.contains("<rect class=\"done\" x=\"110\" y=\"172\" width=\"1060\""));
    assert!(rt; !text.contains("10 clock"));
    Ok(())
}

#[test]
fn a_front_is_written_where_the_writer_is_at_fault(rt: HostRuntime) -> Result<(), Fail> {
    let (_, whole) = drawn(rt.alloc(), 2, TRACE, WHOLE)?;
    let plan = plan(rt.alloc())?;
    let mut writer = Writing::new(Taking::new(rt.alloc(), fails_at(2)));
    let answer = draw(rt.alloc(), &plan, 2, TRACE.as_bytes(), WHOLE, &mut writer);
    assert!(rt; matches!(&answer, Err(DrawError::Write)));
    assert!(rt; whole.as_slice().starts_with(writer.into_inner().taken()));
    Ok(())
}

#[test]
fn a_drawing_without_memory_is_none(rt: HostRuntime) -> Result<(), Fail> {
    let plan = plan(rt.alloc())?;
    let heap = LocalHeap::new(rt.alloc(), 64)?;
    let mut writer = Writing::new(Vec::new(rt.alloc()));
    let answer = draw(&heap, &plan, 2, TRACE.as_bytes(), WHOLE, &mut writer);
    assert!(rt; matches!(&answer, Err(DrawError::Memory)));
    assert!(rt; writer.into_inner().is_empty());
    assert!(rt; heap.used() == 0);
    Ok(())
}

/// A heap with room for a drawing.
fn large_heap(alloc: Global) -> Result<LocalHeap, AllocError> {
    LocalHeap::new(alloc, 1 << 16)
}

#[test]
fn a_drawing_gives_all_memory_back(rt: HostRuntime) -> Result<(), Fail> {
    let plan = plan(rt.alloc())?;
    let heap = large_heap(rt.alloc())?;
    let mut writer = Writing::new(Vec::new(rt.alloc()));
    let answer = draw(&heap, &plan, 2, TRACE.as_bytes(), WHOLE, &mut writer);
    assert!(rt; matches!(&answer, Ok(Drawn::Drawn)));
    assert!(rt; heap.used() == 0);
    Ok(())
}

#[test]
fn a_drawing_that_is_not_written_gives_all_memory_back(rt: HostRuntime) -> Result<(), Fail> {
    let plan = plan(rt.alloc())?;
    let heap = large_heap(rt.alloc())?;
    let mut writer = Writing::new(Taking::new(rt.alloc(), fails_at(1)));
    let answer = draw(&heap, &plan, 2, TRACE.as_bytes(), WHOLE, &mut writer);
    assert!(rt; matches!(&answer, Err(DrawError::Write)));
    assert!(rt; heap.used() == 0);
    Ok(())
}

#[test]
fn a_fault_of_the_ends_has_its_text(rt: HostRuntime) -> Result<(), Fail> {
    let text = format!(in rt.alloc(); "{}, {}", DrawError::Write, DrawError::Memory)?;
    assert!(rt; text.as_str() == "write fault, out of memory", "{text}");
    Ok(())
}
