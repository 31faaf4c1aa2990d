// What a command of people answers.

/// What a command answers, and whether some of it wasn't done, which was told.
#[derive(Debug, Drop)]
pub struct Answer {
    /// What is to be written to the output.
    pub text: String,
    /// Whether some of it wasn't done, which was told on standard error.
    pub is_partly: bool,
}

impl Answer {
    /// Returns an answer of a command that is done.
    pub fn whole(text: String) -> Answer {
        Answer {
            text,
            is_partly: false,
        }
    }
}
