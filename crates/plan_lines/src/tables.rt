//! In which table of a plan a place of its text is.

/// The key of the blocks of a plan.
pub const BLOCK: &[u8] = b"block";

/// The key of the calls of a block.
pub const CALL: &[u8] = b"call";

/// A table of a document.
#[derive(Clone, Copy, PartialEq, Eq)]
pub enum Table {
    Top,
    /// A block of the plan.
    Block,
    /// A call of the block that the scan is in.
    Call,
    /// A table that is none of a plan.
    Other,
}

/// How the tables of a plan are written.
#[derive(Clone, Copy, PartialEq, Eq)]
pub enum Form {
    /// Below a header.
    Header,
    /// Between braces.
    Inline,
}

/// In which brackets a place of the text is, as far as they are those of tables of a plan.
#[derive(Clone, Copy, PartialEq, Eq)]
pub enum Level {
    /// In none.
    Line,
    /// In the array of the blocks.
    Blocks,
    /// In the braces of a block.
    Block,
    /// In the array of the calls of a block of this form.
    Calls(Form),
    /// In the braces of a call of a block of this form.
    Call(Form),
}

impl Level {
    /// Where a place behind the closing bracket is.
    pub fn outer(self) -> Level {
        match self {
            Level::Line | Level::Blocks => Level::Line,
            Level::Block => Level::Blocks,
            Level::Calls(Form::Header) => Level::Line,
            Level::Calls(Form::Inline) => Level::Block,
            Level::Call(form) => Level::Calls(form),
        }
    }

    /// The table whose keys stand here, where `header` is that of the last header.
    pub fn table(self, header: Table) -> Table {
        match self {
            Level::Line => header,
            Level::Block => Table::Block,
            Level::Call(_) => Table::Call,
            Level::Blocks | Level::Calls(_) => Table::Other,
        }
    }

    /// What the array at the key `name` of the table here holds, as the level in it: blocks or calls, or nothing of a plan. `header`
    /// is the table of the last header.
    pub fn array_at(self, header: Table, name: &[u8]) -> Option<Level> {
        match (self, self.table(header)) {
            (_, Table::Top) if name == BLOCK => Some(Level::Blocks),
            (Level::Line, Table::Block) if name == CALL => Some(Level::Calls(Form::Header)),
            (Level::Block, _) if name == CALL => Some(Level::Calls(Form::Inline)),
            _ => None,
        }
    }
}

/// The parts of a key, or of a header, up to the third.
#[derive(Clone, Copy)]
pub struct Path<'t> {
    /// The place in the text where it begins.
    pub begin: usize,
    /// How many parts there are.
    pub count: usize,
    /// The parts, each `None` where it cannot be read, and the first three alone.
    pub parts: [Option<&'t [u8]>; 3],
}

impl<'t> Path<'t> {
    /// A path without parts that begins at a place of a text.
    pub fn new(begin: usize) -> Path<'t> {
        Path {
            begin,
            count: 0,
            parts: [None; 3],
        }
    }

    /// Puts a part behind the others.
    pub fn add(&mut self, part: Option<&'t [u8]>) {
        if self.count < 3 {
            self.parts[self.count] = part;
        }
        self.count = self.count.saturating_add(1);
    }

    /// Whether one of the first three parts cannot be read.
    pub fn is_unread(&self) -> bool {
        self.parts
            .iter()
            .take(self.count)
            .any(|part| part.is_none())
    }
}
