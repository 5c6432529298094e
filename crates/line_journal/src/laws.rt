//! What is so of each file. The functions do nothing: what they ensure is the law.
ghost use Rattle.std.specs.Prelude.{◌≡◌, ◌⊎◌, ℕ, List, [], ◌∷◌, ◌++◌};
ghost use Rattle.std.specs.List.{AllByRecursion};
ghost use Rattle.line_journal.specs.Groups.{IsGroup, Keeps};
ghost use Rattle.line_journal.specs.Parts.{Part, Has, StandFor};
ghost use Rattle.line_journal.specs.Runs.{Event, Leads, KeepsAnswered, IsOf, one_run};

/// A file has one list of groups from a place on: whoever reads it reads these.
pub fn a_file_keeps_one_list()
    ensures { (file : List ℕ) (start : ℕ) (some others : List (List ℕ)) → AllByRecursion IsGroup some → AllByRecursion IsGroup others → Keeps file start some → Keeps file start others → some ≡ others }
{}

/// A file that counts has one part: its head, its text and its groups.
pub fn a_file_has_one_part()
    ensures { (file : List ℕ) (some other : Part) → Has file some → Has file other → some ≡ other }
{}

/// Two files stand for one part, and in whichever order.
pub fn two_files_stand_for_one_part()
    ensures one { (workers : ℕ) (first second : List ℕ) (some other : Part) → StandFor workers first second some → StandFor workers first second other → some ≡ other }
    ensures turned { (workers : ℕ) (first second : List ℕ) (part : Part) → StandFor workers first second part → StandFor workers second first part }
{}

/// Over a whole run, with errors and crashes anywhere, no answered line is lost, and none is kept that was not handed in: the snapshot
/// covers the first ones of what is kept, and the others stand behind it.
pub fn no_answered_line_is_lost()
    ensures kept { (events : List Event) (start end : Part) (groups : List (List ℕ)) → IsOf start groups → Leads start events end
        → (kept : List (List ℕ)) × KeepsAnswered events kept × IsOf end (groups ++ kept) }
    // Up to the first error or crash, what is kept is a front of what was handed in.
    ensures front { (groups kept : List (List ℕ)) (last : List ℕ) → KeepsAnswered (one_run groups last) kept → (kept ≡ groups) ⊎ (kept ≡ groups ++ last ∷ []) }
{}
