//! The causes for which a program isn't lowered: numbers, names, and what is said of them.

/// Why files have no program. Causes of one number have one name, and sentences of their own.
#[derive(Clone, Copy, Debug, PartialEq, Eq)]
pub enum Why {
    NotRead,
    NotText,
    Unexpected,
    NoMain,
    TwoMains,
    NoReactor,
    NotImported,
    UnknownName,
    UnknownInstance,
    UnknownPort,
    UnknownParameter,
    GivesNoParameter,
    TwoNames,
    TwoReactors,
    GivenTwice,
    ContainsItself,
    ExtendsItself,
    WidthByCode,
    OpenWidth,
    WidthOfItself,
    NegativeWidth,
    WidthByIndex,
    NoWholeNumber,
    NoTime,
    TimeTooLong,
    NotOfTypeTime,
    StandsForTime,
    DefaultByName,
    Mode,
    PhysicalConnection,
    Spacing,
    Mutation,
    Watchdog,
    Decentralized,
    Package,
    MissingNumber,
    MissingTime,
    MissingInMain,
    NoTrigger,
    TooManyInstances,
    TooManyPorts,
    TooManyConnections,
    TooManyActions,
    TooManyTimers,
    TooManyReactions,
    TooMuch,
}

impl Why {
    ghost use Rattle.std.specs.Prelude.{◌≡◌, ◌-◌, Some, slice_get};
    ghost use Rattle.lft_whole.specs.Sources.Causes.{names, number_of, sentence_of};

    /// The number and the name of the cause.
    pub fn cause(self) -> (u32, &'static str)
        ensures number { result.0 ≡ number_of self }
        ensures name { slice_get names (result.0 - 1) ≡ Some result.1.now }
    {
        match self {
            Why::NotRead => (1, "Read"),
            Why::NotText => (2, "BadText"),
            Why::Unexpected => (3, "Unexpected"),
            Why::NoMain => (4, "NoMain"),
            Why::TwoMains => (5, "TwoMains"),
            Why::NoReactor | Why::NotImported => (6, "NoReactor"),
            Why::UnknownName | Why::UnknownInstance | Why::UnknownPort => (7, "UnknownName"),
            Why::UnknownParameter | Why::GivesNoParameter => (7, "UnknownName"),
            Why::TwoNames | Why::TwoReactors | Why::GivenTwice => (8, "DuplicateName"),
            Why::ContainsItself | Why::ExtendsItself => (9, "Recursive"),
            Why::WidthByCode | Why::OpenWidth | Why::WidthOfItself => (10, "Width"),
            Why::NegativeWidth | Why::WidthByIndex | Why::NoWholeNumber => (10, "Width"),
            Why::NoTime | Why::TimeTooLong | Why::NotOfTypeTime => (11, "Time"),
            Why::StandsForTime | Why::DefaultByName => (11, "Time"),
            Why::Mode => (12, "Mode"),
            Why::PhysicalConnection => (13, "PhysicalConnection"),
            Why::Spacing => (14, "Spacing"),
            Why::Mutation => (15, "Mutation"),
            Why::Watchdog => (16, "Watchdog"),
            Why::Decentralized => (17, "Decentralized"),
            Why::Package => (18, "Package"),
            Why::MissingNumber | Why::MissingTime | Why::MissingInMain => (19, "Missing"),
            Why::NoTrigger => (20, "NoTrigger"),
            Why::TooManyInstances | Why::TooManyPorts | Why::TooManyConnections => (21, "TooMany"),
            Why::TooManyActions | Why::TooManyTimers | Why::TooManyReactions => (21, "TooMany"),
            Why::TooMuch => (21, "TooMany"),
        }
    }

    /// What is said of the cause, and what to write in its place.
    pub fn words(self) -> &'static str
        ensures { result.now ≡ sentence_of self }
    {
        match self {
            Why::NotRead => "The file can't be read. Correct the path.",
            Why::NotText => "This begins nothing that Lingua Franca has, or isn't closed.",
            Why::Unexpected => "This can't stand here.",
            Why::NoMain => "The file has no main reactor. Name the file that has it.",
            Why::TwoMains => "The file has two main reactors.",
            Why::NoReactor => "There is no reactor of this name in the file, or imported by it.",
            Why::NotImported => "The imported file has no reactor of this name.",
            Why::UnknownName => "The reactor has nothing of this name.",
            Why::UnknownInstance => "The reactor has no instance of this name.",
            Why::UnknownPort => "The instance has no port of this name.",
            Why::UnknownParameter => "The reactor has no parameter of this name.",
            Why::GivesNoParameter => "The reactor of the instance has no parameter of this name.",
            Why::TwoNames => "The reactor has two things of this name, with those of its bases.",
            Why::TwoReactors => "The file has two reactors of this name.",
            Why::GivenTwice => "The parameter is given twice.",
            Why::ContainsItself =>
                "By this instance the reactor contains itself. Write a bank in its place.",
            Why::ExtendsItself => "The reactor extends itself.",
            Why::WidthByCode =>
                "A width by code can't be known here. Write the number, or a parameter.",
            Why::OpenWidth => "A width that is left open can't be known here. Write the number.",
            Why::WidthOfItself => "This width depends on itself. Write the number.",
            Why::NegativeWidth => "The parameter is below 0 here, and no width.",
            Why::WidthByIndex =>
                "A width in this reactor depends on bank_index, so the members of the bank differ. Write them as instances of several reactors.",
            Why::NoWholeNumber =>
                "This decides a width, and isn't a whole number or a parameter. Write the number.",
            Why::NoTime =>
                "This time can't be known here. A time is a whole number with a unit, 0, or a parameter of type time.",
            Why::TimeTooLong =>
                "This time is longer than 10^18 nanoseconds, which is more than is read.",
            Why::NotOfTypeTime => "The parameter isn't of type time.",
            Why::StandsForTime => "The parameter stands for a time, and isn't of type time.",
            Why::DefaultByName => "A default can't be a parameter. Write the time.",
            Why::Mode =>
                "A mode decides which reactions run, and `lftrace` knows none. No program without modes is equivalent.",
            Why::PhysicalConnection =>
                "A physical connection gives its events tags by a clock. Write a reactor with a physical action in its place, whose events stand in the external table.",
            Why::Spacing =>
                "A least spacing of a logical action moves or drops events, and `lftrace` knows none. Leave it out where it never acts.",
            Why::Mutation =>
                "A mutation changes the program while it runs. No program without mutations is equivalent.",
            Why::Watchdog =>
                "A watchdog expires by a clock. Write a physical action of its name in its place. Its expiries are then events of the external table.",
            Why::Decentralized =>
                "With decentralized coordination a message may be handled after its tag, and `lftrace` knows no such runs. Write `coordination: centralized`.",
            Why::Package => "A package isn't looked up. Import its file by its path.",
            Why::MissingNumber =>
                "A parameter decides a width, and has neither a default nor a value. Give it.",
            Why::MissingTime =>
                "A parameter stands for a time, and has neither a default nor a value here. Give it.",
            Why::MissingInMain => "The parameter of the main reactor has no default. Write one.",
            Why::NoTrigger => "The reaction has no trigger.",
            Why::TooManyInstances =>
                "The program has more than 10000 instances. Write smaller widths.",
            Why::TooManyPorts => "The program has more than 100000 ports. Write smaller widths.",
            Why::TooManyConnections =>
                "The program has more than 100000 connections. Write smaller widths.",
            Why::TooManyActions =>
                "The program has more than 100000 actions. Write smaller widths.",
            Why::TooManyTimers => "The program has more than 100000 timers. Write smaller widths.",
            Why::TooManyReactions =>
                "The program has more than 10000 reactions. Write smaller widths.",
            Why::TooMuch =>
                "The reactors with all that they inherit, in all their settings, are more than is listed.",
        }
    }
}
