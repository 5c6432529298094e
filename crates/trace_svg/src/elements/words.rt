//! What a shape stands for: a word that the style sheet knows.

ghost use Rattle.std.specs.Prelude.{◌≡◌};
ghost use Rattle.trace_svg.specs.elements.Words.{face_word, fill_word, glyph_word, stroke_word};

/// What a filled rectangle stands for: how a run ended.
#[derive(Clone, Copy, Debug)]
pub enum Fill {
    /// It gave a value.
    Done,
    /// It failed.
    Failed,
    /// It will be run again.
    Again,
    /// Its task was cancelled meanwhile.
    Dropped,
    /// Its task was ended by a policy.
    Ended,
    /// It is under way.
    Open,
}

impl Fill {
    /// The word of it.
    pub fn word(self) -> &'static str
        ensures { result.now ≡ fill_word self }
    {
        match self {
            Fill::Done => "done",
            Fill::Failed => "failed",
            Fill::Again => "again",
            Fill::Dropped => "dropped",
            Fill::Ended => "ended",
            Fill::Open => "open",
        }
    }
}

/// What a mark stands for. Each has a shape of its own.
#[derive(Clone, Copy, Debug)]
pub enum Glyph {
    /// A submission: a disc.
    Submit,
    /// A refusal: a cross.
    Refuse,
    /// A cancel by the plan: a square.
    Cancel,
    /// A cancel from outside: the outline of a square.
    Outside,
    /// The end of a task: a triangle that points down.
    End,
    /// A policy: a diamond.
    Policy,
    /// A shutdown: a plus.
    Shutdown,
    /// A question how the executor stands: a ring.
    Ask,
    /// A clock: an upright line.
    Clock,
    /// A worker that found no work: a flat line.
    Idle,
    /// An event that was no good: a triangle that points up.
    Error,
}

impl Glyph {
    /// The word of it.
    pub fn word(self) -> &'static str
        ensures { result.now ≡ glyph_word self }
    {
        match self {
            Glyph::Submit => "submit",
            Glyph::Refuse => "refuse",
            Glyph::Cancel => "cancel",
            Glyph::Outside => "outside",
            Glyph::End => "end",
            Glyph::Policy => "policy",
            Glyph::Shutdown => "shutdown",
            Glyph::Ask => "ask",
            Glyph::Clock => "clock",
            Glyph::Idle => "idle",
            Glyph::Error => "error",
        }
    }
}

/// What a line stands for.
#[derive(Clone, Copy, Debug)]
pub enum Stroke {
    /// A round moment.
    Grid,
    /// The foot of a lane.
    Lane,
    /// The axis of time.
    Axis,
}

impl Stroke {
    /// The word of it.
    pub fn word(self) -> &'static str
        ensures { result.now ≡ stroke_word self }
    {
        match self {
            Stroke::Grid => "grid",
            Stroke::Lane => "lane",
            Stroke::Axis => "axis",
        }
    }
}

/// What a label tells.
#[derive(Clone, Copy, Debug)]
pub enum Face {
    /// The name of a lane: it ends where it stands.
    Row,
    /// A round moment: its middle stands there.
    Tick,
    /// The run in a bar: it begins there.
    Run,
    /// A word of the legend: it begins there.
    Key,
    /// How many marks stand at one place: it begins there.
    Count,
}

impl Face {
    /// The word of it.
    pub fn word(self) -> &'static str
        ensures { result.now ≡ face_word self }
    {
        match self {
            Face::Row => "row",
            Face::Tick => "tick",
            Face::Run => "run",
            Face::Key => "key",
            Face::Count => "count",
        }
    }
}
