use std::marker::Brand;

/// Which words, cells, calls and workers a book and its handles are of. Callers pick it at [`Brand`]; it has no functions.
pub trait Named {
    ghost use Rattle.std.specs.Prelude.{List, ℕ};
    ghost use Rattle.atomic_table.specs.Seated.{TableId};
    ghost use Rattle.queue_code.specs.Calls.{Planned};

    ghost table: { TableId };

    ghost cells: { List ℕ };

    ghost calls: { List Planned };

    ghost workers: { ℕ };
}

// Placeholders: which ones are meant at a call says the record that its caller chooses in a proof.
impl Named for Brand {
    ghost use Rattle.std.specs.Prelude.{[]};

    ghost table = { record { words = 0; slots = 0; views_name = 0; atom = 0; block = 0; offset = 0; slot_names = [] } };

    ghost cells = { [] };

    ghost calls = { [] };

    ghost workers = { 1 };
}
