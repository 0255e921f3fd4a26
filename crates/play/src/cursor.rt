// Where a text of calls is read: the place at which a line starts, and the line's number.
ghost use Rattle.std.specs.Prelude.{◌≡◌};
ghost use Rattle.play.specs.Steps.{start_cursor};

// Only the text's start and a line that was played give one.
#[derive(Clone, Copy)]
pub struct Cursor {
    pub(crate) at: usize,
    pub(crate) line: u64,
}

impl Cursor {
    // The text's start, which is line 1.
    #[tactic(auto, unfolding(crate::specs::Steps::start_cursor))]
    pub fn start() -> Self
        ensures { result ≡ start_cursor }
    {
        Cursor { at: 0, line: 1 }
    }

    // The place of the text at which the line starts.
    pub fn place(self) -> usize
        ensures { result ≡ self.at }
    {
        self.at
    }

    pub fn number(self) -> u64
        ensures { result ≡ self.line }
    {
        self.line
    }
}
