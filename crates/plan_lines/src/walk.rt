//! A walk along the tokens of a plan text, up to a place of the plan.

use crate::places::Place;
use crate::tables::{BLOCK, CALL, Level, Path, Table};
use crate::tokens::{Token, next_token};

/// What of an expression of the text was met.
#[derive(Clone, Copy, PartialEq, Eq)]
enum Stage {
    /// Nothing: a key or a header may follow.
    Start,
    /// The opening bracket of a header, or the two of one of an array of tables, and parts of its path.
    Header,
    /// Parts of a key.
    Key,
    /// The key and its `=`, or the header.
    Behind,
}

/// A walk along the tokens of a text that looks for a place.
#[derive(Drop)]
pub struct Walk<'t, 'k> {
    text: &'t [u8],
    place: Place<'k>,
    /// Where the place was met.
    found: Option<usize>,
    /// Whether a header was met that cannot be read.
    is_lost: bool,
    /// How many blocks were begun, and how many calls of the last of them.
    blocks: usize,
    calls: usize,
    /// The table of the last header.
    header: Table,
    level: Level,
    /// How many brackets are open that are none of tables of a plan.
    others: usize,
    stage: Stage,
    /// Whether the header is one of an array of tables.
    is_array: bool,
    path: Path<'t>,
    /// Where an array at the last key leads.
    inner: Option<Level>,
}

impl<'t, 'k> Walk<'t, 'k> {
    /// A walk along a text that has met no token.
    pub fn new(text: &'t [u8], place: Place<'k>) -> Walk<'t, 'k> {
        Walk {
            text,
            place,
            found: None,
            is_lost: false,
            blocks: 0,
            calls: 0,
            header: Table::Top,
            level: Level::Line,
            others: 0,
            stage: Stage::Start,
            is_array: false,
            path: Path::new(0),
            inner: None,
        }
    }

    /// Where the place was first met.
    pub fn found(&self) -> Option<usize> {
        self.found
    }

    /// Meets the first token at a place of the text or behind it, and tells where it ends; none where there is none.
    pub fn take_next(&mut self, from: usize) -> Option<usize> {
        let stretch = next_token(self.text, from)?;
        self.take(stretch.token, stretch.begin);
        Some(stretch.end)
    }

    /// Meets the next token, which begins at a place of the text.
    fn take(&mut self, token: Token<'t>, begin: usize) {
        if self.is_lost {
            return;
        }
        match token {
            Token::OpenArray => self.open_array(begin),
            Token::OpenTable => self.open_table(begin),
            Token::Close => self.close(),
            _ if self.others > 0 => {}
            Token::Word(word) => self.take_part(Some(word), begin),
            Token::Unread => self.take_part(None, begin),
            Token::Equals => self.end_key(),
            Token::Comma => self.end_member(),
            Token::Newline => self.end_line(),
            Token::Dot => {}
        }
    }

    /// Meets a word or a string: a part of a key or of a header, or of a value.
    fn take_part(&mut self, part: Option<&'t [u8]>, begin: usize) {
        if self.stage == Stage::Start {
            self.path = Path::new(begin);
            self.stage = Stage::Key;
        }
        if self.stage != Stage::Behind {
            self.path.add(part);
        }
    }

    /// Meets `=`, which ends a key.
    fn end_key(&mut self) {
        if self.stage != Stage::Key {
            return;
        }
        self.stage = Stage::Behind;
        self.inner = None;
        if let [Some(first), _, _] = self.path.parts {
            self.meet_key(self.level.table(self.header), first);
            if self.path.count == 1 {
                self.inner = self.level.array_at(self.header, first);
            }
        }
    }

    /// Meets `,`, which ends a member of an inline table.
    fn end_member(&mut self) {
        if matches!(self.level, Level::Block | Level::Call(_)) {
            self.stage = Stage::Start;
        }
    }

    /// Meets the end of a line.
    fn end_line(&mut self) {
        if self.level == Level::Line {
            self.stage = Stage::Start;
        }
    }

    /// Meets `[`, which begins a header or an array.
    fn open_array(&mut self, begin: usize) {
        if self.others > 0 {
            self.others = self.others.saturating_add(1);
            return;
        }
        match (self.stage, self.inner) {
            (Stage::Start, _) => {
                self.path = Path::new(begin);
                self.stage = Stage::Header;
                self.is_array = false;
            }
            (Stage::Header, _) => self.is_array = true,
            (Stage::Behind, Some(level)) => {
                self.level = level;
                self.inner = None;
            }
            _ => self.others = 1,
        }
    }

    /// Meets `{`, which begins an inline table.
    fn open_table(&mut self, begin: usize) {
        match self.level {
            Level::Blocks if self.others == 0 => {
                self.level = Level::Block;
                self.stage = Stage::Start;
                self.begin_block(begin);
            }
            Level::Calls(form) if self.others == 0 => {
                self.level = Level::Call(form);
                self.stage = Stage::Start;
                self.begin_call(begin);
            }
            _ => self.others = self.others.saturating_add(1),
        }
    }

    /// Meets `]` or `}`.
    fn close(&mut self) {
        if self.others > 0 {
            self.others -= 1;
            return;
        }
        if self.stage == Stage::Header {
            self.end_header();
        }
        self.level = self.level.outer();
        self.stage = Stage::Behind;
        self.inner = None;
    }

    /// Meets the end of a header.
    fn end_header(&mut self) {
        if self.path.is_unread() {
            self.is_lost = true;
            return;
        }
        self.header = Table::Other;
        let [first, second, third] = self.path.parts;
        if let Some(first) = first {
            self.meet_key(Table::Top, first);
            if first == BLOCK {
                self.end_block_header(second, third);
            }
        }
    }

    /// Meets the end of a header that begins with `block`, with the second and the third part of its path.
    fn end_block_header(&mut self, second: Option<&[u8]>, third: Option<&[u8]>) {
        let Some(second) = second else {
            if self.is_array {
                self.header = Table::Block;
                self.begin_block(self.path.begin);
            }
            return;
        };
        self.meet_key(Table::Block, second);
        if second != CALL {
            return;
        }
        match third {
            Some(third) => self.meet_key(Table::Call, third),
            None if self.is_array && self.blocks > 0 => {
                self.header = Table::Call;
                self.begin_call(self.path.begin);
            }
            None => {}
        }
    }

    /// Meets a block.
    fn begin_block(&mut self, begin: usize) {
        self.blocks = self.blocks.saturating_add(1);
        self.calls = 0;
        self.meet_table(Table::Block, begin);
    }

    /// Meets a call of the last block.
    fn begin_call(&mut self, begin: usize) {
        self.calls = self.calls.saturating_add(1);
        self.meet_table(Table::Call, begin);
    }

    /// Meets a table of a plan, which begins at a place of the text.
    fn meet_table(&mut self, table: Table, begin: usize) {
        if self.place.key.is_none() && self.is_in(table) {
            self.found = Some(begin);
        }
    }

    /// Meets a key of a table, at the beginning of the path.
    fn meet_key(&mut self, table: Table, name: &[u8]) {
        let Some(key) = self.place.key else {
            return;
        };
        if self.found.is_none() && self.is_in(table) && key.as_bytes() == name {
            self.found = Some(self.path.begin);
        }
    }

    /// Whether the place that is looked for is in the table that the walk is in, which is this one.
    fn is_in(&self, table: Table) -> bool {
        let Place { block, call, .. } = self.place;
        match table {
            Table::Top => (block, call) == (0, 0),
            Table::Block => block > 0 && (block, call) == (self.blocks, 0),
            Table::Call => call > 0 && (block, call) == (self.blocks, self.calls),
            Table::Other => false,
        }
    }
}
