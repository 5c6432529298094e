//! What a picture shows.
ghost use Rattle.std.specs.Prelude.{◌≡◌};

use crate::bars::Bar;
use crate::ticks::Tick;
use crate::window::Window;
use executor_model::Line;
use std::alloc::Allocator;
use std::marker::Model;

/// What a picture of a trace shows.
///
/// Contracts see the record of it, `Shown`.
#[derive(Drop)]
pub struct Picture<A: Allocator> {
    window: Window,
    workers: u8,
    bars: Vec<Bar, A>,
    marks: Vec<Line, A>,
    ticks: Vec<Tick, A>,
}

impl<A: Allocator> Model for Picture<A> {
    ghost use Rattle.trace_draw.specs.Pictures.{Shown};

    ghost Value = { Shown };

    ghost view = { λ p. record { window = p.window; workers = p.workers; bars = p.bars.items; marks = p.marks.items; ticks = p.ticks.items } };
}

impl<A: Allocator> Picture<A> {
    /// The picture that shows this.
    pub(crate) fn new(
        window: Window,
        workers: u8,
        bars: Vec<Bar, A>,
        marks: Vec<Line, A>,
        ticks: Vec<Tick, A>,
    ) -> Picture<A>
        ensures { result
            ≡ record {
              window = window;
              workers = workers;
              bars = bars.items;
              marks = marks.items;
              ticks = ticks.items;
            } }
    {
        Picture {
            window,
            workers,
            bars,
            marks,
            ticks,
        }
    }

    /// The part of time that it shows.
    pub fn window(&self) -> Window
        ensures { result ≡ self.now.window }
    {
        self.window
    }

    /// How many lanes it has: one a worker.
    pub fn workers(&self) -> u8
        ensures { result ≡ self.now.workers }
    {
        self.workers
    }

    /// The runs that it shows, in the order of their starts.
    pub fn bars(&self) -> &[Bar]
        ensures { result.now ≡ self.now.bars }
    {
        &self.bars
    }

    /// The lines that it shows as marks, in their order.
    pub fn marks(&self) -> &[Line]
        ensures { result.now ≡ self.now.marks }
    {
        &self.marks
    }

    /// The ticks of its axis, ascending.
    pub fn ticks(&self) -> &[Tick]
        ensures { result.now ≡ self.now.ticks }
    {
        &self.ticks
    }
}
