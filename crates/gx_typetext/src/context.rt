// Where a type stands, and what that means for its text.

ghost use Rattle.std.specs.Prelude.{◌≡◌};
ghost use Rattle.gx_typetext.specs.TypeText.{sequence_is_wrapped, choice_is_wrapped, indicated_is_wrapped};

// Where a type stands: alone, as a part of a sequence, as a member of a choice, or under an indicator.
#[derive(Clone, Copy)]
pub enum Context {
    Whole,
    Sequence,
    Choice,
    Indicator,
}

impl Context {
    // Whether a sequence stands in parentheses here.
    pub fn wraps_sequence(self) -> bool
        ensures { result ≡ sequence_is_wrapped self }
    {
        match self {
            Context::Whole | Context::Sequence => false,
            Context::Choice | Context::Indicator => true,
        }
    }

    // Whether a choice stands in parentheses here.
    pub fn wraps_choice(self) -> bool
        ensures { result ≡ choice_is_wrapped self }
    {
        match self {
            Context::Whole | Context::Choice => false,
            Context::Sequence | Context::Indicator => true,
        }
    }

    // Whether a type with an indicator stands in parentheses here.
    pub fn wraps_indicated(self) -> bool
        ensures { result ≡ indicated_is_wrapped self }
    {
        match self {
            Context::Whole | Context::Sequence | Context::Choice => false,
            Context::Indicator => true,
        }
    }
}
