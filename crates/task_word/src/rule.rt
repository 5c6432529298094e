use crate::views::View;
use atomic_table::{Join, Split, TableRule};

/// The rule of the words, which is so between any two steps.
///
/// The first word of a table belongs to no task. Each other one is the word of a task, in their order.
pub struct WordRule;

impl TableRule<(), View, u32> for WordRule {
    ghost use Rattle.task_word.specs.Rule.{IsWellFormedTable};
    ghost use Rattle.task_word.specs.own.Rule.{task_words};
    ghost use Rattle.task_word.specs.own.Views.{first_view};

    ghost holds = { λ n s. IsWellFormedTable n (task_words s.words) s.views };

    ghost first = { first_view };
}

/// How a handle is cut off from the core's seat, and put back.
pub struct Handing;

impl Split<View> for Handing {
    ghost use Rattle.task_word.specs.own.Views.{lender, lent};

    ghost left = { lender };

    ghost right = { lent };
}

impl Join<View> for Handing {
    ghost use Rattle.task_word.specs.own.Views.{together, spent};

    ghost both = { together };

    ghost spent = { spent };
}
