//! The bars of lines that are read from the last one to the first.
ghost use Rattle.std.specs.Prelude.{◌≡◌, ℕ, ◌<◌, [], ◌∷◌, List, slice_index_or, None};
ghost use Rattle.executor_model.specs.declared.types.Line.{Line as Said};
ghost use Rattle.trace_draw.specs.Bars.{finish_of, bar_in};
ghost use Rattle.trace_draw.specs.own.Ends.{TellEnds};

use crate::bars::{Bar, Finish};
use executor_model::{Answer, Line, Message};

/// How many workers a line can name.
const MOST_NAMED: usize = 256;

/// The first finish of each worker, among the lines read so far.
#[derive(Drop)]
pub struct Ends {
    finishes: [Option<Finish>; MOST_NAMED],
}

impl Ends {
    /// Before any line.
    pub fn new() -> Ends
        ensures { TellEnds result.finishes [] }
    {
        Ends {
            finishes: [None; MOST_NAMED],
        }
    }

    /// Reads the line in front of those read so far: the bar that it begins, if it starts a run.
    pub fn read(&mut self, line: &Line) -> Option<Bar>
        ensures ends { (later : List Said) → TellEnds self.old.finishes later
            → TellEnds self.new.finishes (line.now ∷ later) }
        ensures bar { (later : List Said) → TellEnds self.old.finishes later
            → result ≡ bar_in line.now.moment line.now.message later }
    {
        match line.message() {
            Message::Answer(
                Answer::Start {
                    worker,
                    task,
                    run,
                    due,
                },
            ) => Some(Bar {
                worker,
                task,
                run,
                due,
                first: line.moment(),
                finish: self.finishes[worker as usize],
            }),
            Message::Answer(
                Answer::Finish {
                    worker,
                    outcome,
                    ..
                },
            ) => {
                self.finishes[worker as usize] = Some(Finish {
                    moment: line.moment(),
                    outcome,
                });
                None
            }
            _ => None,
        }
    }
}
