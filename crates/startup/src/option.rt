//! Options among the arguments of a program.

ghost use Rattle.std.specs.Prelude.{◌≡◌};
ghost use Rattle.startup.specs.Option.{option_of};

/// The version of both programs.
pub const VERSION: &str = "0.1.0";

/// An argument that begins with a hyphen.
#[derive(Clone, Copy, Debug, PartialEq, Eq)]
pub enum ProgramOption {
    /// What the program is for and how it is called is asked for.
    Help,
    /// Its version is asked for.
    Version,
    /// No program has it.
    Unknown,
}

/// The option that an argument is; `None` where it does not begin with a hyphen.
pub fn option_of(argument: &str) -> Option<ProgramOption>
    ensures { result ≡ option_of argument.now }
{
    match argument {
        "-h" | "--help" => Some(ProgramOption::Help),
        "-V" | "--version" => Some(ProgramOption::Version),
        other if other.as_bytes().starts_with(b"-") => Some(ProgramOption::Unknown),
        _ => None,
    }
}
