//! The words that a line may begin with, beside those of a day without a dispatcher.
ghost use Rattle.std.specs.Prelude.{◌≡◌};
ghost use Rattle.dispatch_console.specs.Words.{word_of, call_word};

/// The word of a call.
#[derive(Clone, Copy)]
pub enum CallWord {
    Clock,
    Join,
    Leave,
    Book,
    Bound,
    Served,
    Cancel,
    Plan,
    Order,
}

/// The word that a line begins with.
#[derive(Clone, Copy)]
pub enum Word {
    Help,
    Nodes,
    Make,
    Call(CallWord),
}

impl CallWord {
    /// The word of a call that a field is, if it is one.
    // Kept: no `TryFrom`, since there is no error to tell.
    fn from_bytes(field: &[u8]) -> Option<CallWord>
        ensures { result ≡ call_word field.now }
    {
        match field {
            b"clock" => Some(CallWord::Clock),
            b"join" => Some(CallWord::Join),
            b"leave" => Some(CallWord::Leave),
            b"book" => Some(CallWord::Book),
            b"bound" => Some(CallWord::Bound),
            b"served" => Some(CallWord::Served),
            b"cancel" => Some(CallWord::Cancel),
            b"plan" => Some(CallWord::Plan),
            b"order" => Some(CallWord::Order),
            _ => None,
        }
    }
}

impl Word {
    /// The word that a field is, if it is one.
    // Kept: no `TryFrom`, since there is no error to tell.
    pub(crate) fn from_bytes(field: &[u8]) -> Option<Word>
        ensures { result ≡ word_of field.now }
    {
        match field {
            b"help" => Some(Word::Help),
            b"nodes" => Some(Word::Nodes),
            b"make" => Some(Word::Make),
            _ => CallWord::from_bytes(field).map(Word::Call),
        }
    }
}
