// What the search finds, as the numbers of its rows.
ghost use Rattle.std.specs.Prelude.{◌≡◌};
ghost use Rattle.enumeration_rows.specs.Searching.{with_first};

// A proof of one, two or three rows, by their numbers. (No Option or Result: each has a number more than the one before.)
#[derive(Clone, Copy)]
pub enum Rows {
    One { c: usize },
    Two { a: usize, c: usize },
    Three { a: usize, b: usize, c: usize },
}

// The table that is given is none of the proofs.
#[derive(Clone, Copy)]
pub struct NotAmong;

impl Rows {
    // Inference j before these rows; none where they are three. (There are two of them at most.)
    pub fn with_first(self, j: usize) -> Option<Rows>
        ensures { result ≡ with_first j self }
    {
        match self {
            Rows::One { c } => Some(Rows::Two { a: j, c }),
            Rows::Two { a, c } => Some(Rows::Three { a: j, b: a, c }),
            Rows::Three { .. } => None,
        }
    }
}
