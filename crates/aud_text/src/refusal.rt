// The codes of refusals.

ghost use Rattle.std.specs.Prelude.{◌≡◌};
ghost use Rattle.aud_text.specs.Refusal.{number, words};

/// Why a request is refused.
#[derive(Clone, Copy, Debug)]
pub enum Refusal {
    UnknownCommand,
    BadArgument,
    LineTooLong,
    JournalFull,
    NoProgram,
    NoSuchTask,
    NoSuchMove,
    StepBudget,
    ChoicesFull,
    NotAscii,
    Lexical,
    Syntax,
    SourceTooLong,
    TooDeep,
    NameNotDeclared,
    DeclaredTwice,
    WrongKindOfName,
    WrongType,
    WrongNumberOfArguments,
    NotAVariable,
    WrongNameAtEnd,
    NoMatchingBody,
    AcceptOrCountOutOfPlace,
    FormalsDoNotConform,
    ExitWithoutLoop,
    ReturnOutOfPlace,
    RaiseWithoutHandler,
    BadHandlerChoice,
    FunctionCallOutOfPlace,
    NumberTooLarge,
    TooManyDecimals,
    ChangeWithinFunction,
    ParameterInBarrier,
    NotAnEntry,
    RequeueOutOfPlace,
    ExternalRequeue,
    TargetDeclaredInside,
    OutOfMemory,
}

impl Refusal {
    /// The number that stands after the letter E.
    pub fn number(self) -> u8
        ensures { result ≡ number self }
    {
        self.told().0
    }

    /// The words that say why.
    pub fn words(self) -> &'static [u8]
        ensures { result.now ≡ words self }
    {
        self.told().1
    }

    // The number and the words.
    fn told(self) -> (u8, &'static [u8])
        ensures number { result.0 ≡ number self }
        ensures words { result.1.now ≡ words self }
    {
        match self {
            Refusal::UnknownCommand => (10, b"unknown command"),
            Refusal::BadArgument => (11, b"bad argument"),
            Refusal::LineTooLong => (12, b"line too long"),
            Refusal::JournalFull => (13, b"journal full"),
            Refusal::NoProgram => (14, b"no program"),
            Refusal::NoSuchTask => (15, b"no such task"),
            Refusal::NoSuchMove => (16, b"no such move"),
            Refusal::StepBudget => (17, b"step budget"),
            Refusal::ChoicesFull => (18, b"choice list full"),
            Refusal::NotAscii => (19, b"not ASCII"),
            Refusal::Lexical => (20, b"lexical"),
            Refusal::Syntax => (21, b"syntax"),
            Refusal::SourceTooLong => (22, b"source too long"),
            Refusal::TooDeep => (23, b"too deep"),
            Refusal::NameNotDeclared => (30, b"name not declared"),
            Refusal::DeclaredTwice => (31, b"declared twice"),
            Refusal::WrongKindOfName => (32, b"wrong kind of name"),
            Refusal::WrongType => (33, b"wrong type"),
            Refusal::WrongNumberOfArguments => (34, b"wrong number of arguments"),
            Refusal::NotAVariable => (35, b"not a variable"),
            Refusal::WrongNameAtEnd => (36, b"wrong name at end"),
            Refusal::NoMatchingBody => (37, b"no matching body"),
            Refusal::AcceptOrCountOutOfPlace => (38, b"accept or Count out of place"),
            Refusal::FormalsDoNotConform => (39, b"formals do not conform"),
            Refusal::ExitWithoutLoop => (40, b"exit without loop"),
            Refusal::ReturnOutOfPlace => (41, b"return out of place"),
            Refusal::RaiseWithoutHandler => (42, b"raise without handler"),
            Refusal::BadHandlerChoice => (43, b"bad handler choice"),
            Refusal::FunctionCallOutOfPlace => (44, b"function call out of place"),
            Refusal::NumberTooLarge => (45, b"number too large"),
            Refusal::TooManyDecimals => (46, b"too many decimals"),
            Refusal::ChangeWithinFunction => (47, b"change within a function"),
            Refusal::ParameterInBarrier => (48, b"parameter in barrier"),
            Refusal::NotAnEntry => (49, b"not an entry"),
            Refusal::RequeueOutOfPlace => (50, b"requeue out of place"),
            Refusal::ExternalRequeue => (51, b"external requeue in a protected body"),
            Refusal::TargetDeclaredInside => (52, b"target declared inside"),
            Refusal::OutOfMemory => (90, b"out of memory"),
        }
    }
}
