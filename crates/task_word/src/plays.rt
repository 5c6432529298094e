use crate::views::View;
use atomic_table::Play;

/// The core's store that submits a task.
pub struct Submits;

/// The core's exchange that moves a task on.
pub struct Moves;

/// The core's setting of the bit.
pub struct CoreCancels;

/// The core's load.
pub struct CoreLooks;

/// A handle's setting of the bit.
pub struct HandleCancels;

/// A handle's load.
pub struct HandleLooks;

impl Play<(), View> for Submits {
    ghost use Rattle.task_word.specs.own.Steps.{Submitted};

    ghost then = { λ s me found next. Submitted s.word me next };
}

impl Play<(), View> for Moves {
    ghost use Rattle.task_word.specs.own.Steps.{Exchanged};

    ghost then = { λ s me found next. Exchanged s.word s.first s.second me found next };
}

impl Play<(), View> for CoreCancels {
    ghost use Rattle.task_word.specs.own.Steps.{CoreCancelled};

    ghost then = { λ s me found next. CoreCancelled s.word me found next };
}

impl Play<(), View> for CoreLooks {
    ghost use Rattle.task_word.specs.own.Steps.{CoreLooked};

    ghost then = { λ s me found next. CoreLooked s.word me found next };
}

impl Play<(), View> for HandleCancels {
    ghost use Rattle.task_word.specs.own.Steps.{HandleCancelled};

    ghost then = { λ s me found next. HandleCancelled s.word me found next };
}

impl Play<(), View> for HandleLooks {
    ghost use Rattle.task_word.specs.own.Steps.{HandleLooked};

    ghost then = { λ s me found next. HandleLooked s.word me found next };
}
